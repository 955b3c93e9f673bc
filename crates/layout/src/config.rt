// A configuration as bytes, and the writer that is created with it.
ghost use Rattle.std.specs.Prelude.{◌≡◌};
ghost use Rattle.vbv.specs.Answers.{model_answer};
ghost use Rattle.rate_control.specs.Create.{create};
ghost use Rattle.layout.specs.Config.{config_in};
ghost use Rattle.layout.specs.Steps.{or_outside, narrowed};

use crate::mode::mode_for;
use rate_control::{CbrConfig, CbrWriter};
use vbv::VbvError;
use words::word_at;

// A value as it is, or one out of its range where it is above the most, so that creation refuses it in its own order. (Of one
// type's whole range `try_from(..).unwrap_or(outside)` would do; most of these are narrower.)
fn or_outside(most: u64, outside: u64, value: u64) -> u64
    ensures { result ≡ or_outside most outside value }
{
    if value <= most { value } else { outside }
}

// The words of a configuration, in fields of few bits: no word that is out of its range comes into it.
fn config_at(place: &[u8]) -> CbrConfig
    ensures { result ≡ narrowed (config_in place.now) }
{
    CbrConfig {
        mode: mode_for(word_at(place, 0)),
        bit_rate_value: or_outside(262143, 0, word_at(place, 1)) as u32,
        vbv_buffer_size_value: or_outside(1023, 0, word_at(place, 2)) as u16,
        frame_rate_code: or_outside(8, 0, word_at(place, 3)) as u8,
        frame_rate_extension_n: or_outside(3, 4, word_at(place, 4)) as u8,
        frame_rate_extension_d: or_outside(31, 32, word_at(place, 5)) as u8,
        initial_quantiser_scale_code: or_outside(31, 0, word_at(place, 6)) as u8,
        b_between: or_outside(15, 16, word_at(place, 7)) as u8,
        anchors_per_gop: or_outside(255, 0, word_at(place, 8)) as u8,
    }
}

// The writer of a configuration's words, as creation answers to their values.
pub fn create_from(place: &[u8]) -> Result<CbrWriter, VbvError>
    ensures { model_answer result ≡ create (config_in place.now) }
{
    CbrWriter::create(config_at(place))
}
