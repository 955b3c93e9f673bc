// The numbers of the modes, as the C interface has them.
ghost use Rattle.std.specs.Prelude.{◌≡◌};
ghost use Rattle.layout.specs.Mode.{is_mode, mode_for};

use verify::{VbvMode, VbvStandard};

// The modes: MPEG-1, MPEG-2 and MPEG-2 film, and the last two at a variable rate.
pub const MPEG1: u64 = 1;

pub const MPEG2: u64 = 2;

pub const MPEG2_FILM: u64 = 6;

pub const MPEG2_VARIABLE: u64 = 10;

pub const MPEG2_FILM_VARIABLE: u64 = 14;

// Whether a number is a mode's.
#[tactic(auto, unfolding(crate::specs::Mode::is_mode))]
pub fn is_mode(number: u64) -> bool
    ensures { result ≡ is_mode number }
{
    (number == MPEG1)
        | ((number == MPEG2)
            | ((number == MPEG2_FILM)
                | ((number == MPEG2_VARIABLE) | (number == MPEG2_FILM_VARIABLE))))
}

// The mode of a number. It answers for every number, as the definition `mode_for` (specs/Mode, which may not change) does, by
// which `config_in` and `cadence_in` speak; `is_mode` says which are modes. Flag by flag, as there: a `match` is no plainer.
#[tactic(auto, unfolding(crate::specs::Mode::mode_for, bits::specs::Bits::pick))]
pub fn mode_for(number: u64) -> VbvMode
    ensures { result ≡ mode_for number }
{
    if number == MPEG1 {
        return VbvMode::plain(VbvStandard::Mpeg1);
    }
    VbvMode {
        standard: VbvStandard::Mpeg2,
        film: (number == MPEG2_FILM) | (number == MPEG2_FILM_VARIABLE),
        variable: (number == MPEG2_VARIABLE) | (number == MPEG2_FILM_VARIABLE),
    }
}
