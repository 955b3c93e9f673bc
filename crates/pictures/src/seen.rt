// The pictures of a stream as their headers show them, one after another.
ghost use Rattle.std.specs.Prelude.{◌≡◌, ◌+◌, ◌*◌, ◌≤◌, length};
ghost use Rattle.vbv.specs.Model.{farthest};
ghost use Rattle.headers.specs.Answers.{header_answer};
ghost use Rattle.pictures.specs.Answers.{seen_answer};
ghost use Rattle.pictures.specs.Seen.{shown, seen_of, next_seen};

use crate::{SeenPicture, Unread, VbvStandard};
use headers::Error;
use picture_header::{PictureFacts, told, told_with_extension};
use scan::next_picture;
use vbv::{FARTHEST, VbvError};

// What the picture that begins a part of the stream shows. (Of two standards a `match` is the plainest choice.)
#[tactic(auto, unfolding(crate::specs::Seen::shown))]
fn shown_at(part: &[u8], standard: VbvStandard) -> Result<(u16, PictureFacts), Error>
    ensures { header_answer result ≡ shown standard part.now }
{
    match standard {
        VbvStandard::Mpeg1 => told(part),
        VbvStandard::Mpeg2 => told_with_extension(part),
    }
}

// The picture whose start code stands at `at` and whose data ends at `end`.
#[tactic(auto, unfolding(crate::specs::Seen::seen_of))]
fn seen_picture(at: usize, end: usize, vbv_delay: u16, facts: PictureFacts) -> SeenPicture
    requires at_bound { 8 * (at + 4) ≤ farthest }
    requires end_bound { 8 * end ≤ farthest }
    ensures { result ≡ seen_of (record { start = at; end = end }) (vbv_delay, facts) }
{
    let pos_bits = 8 * ((at + 4) as u64);
    let end_bits = 8 * (end as u64);
    SeenPicture {
        pos_bits,
        end_bits,
        vbv_delay,
        facts,
    }
}

// The first picture that begins at a code which a scan from `from` finds, as its headers show it, and where the walk goes on;
// None where there is none.
pub fn next_seen(
    stream: &[u8],
    standard: VbvStandard,
    from: usize,
) -> Result<Option<(SeenPicture, usize)>, Unread>
    ensures { seen_answer result ≡ next_seen standard stream.now from }
{
    if FARTHEST / 8 < stream.len() as u64 {
        return Err(Unread::Model(VbvError::Range));
    }
    let Some(span) = next_picture(stream, from) else {
        return Ok(None);
    };
    let (vbv_delay, facts) = shown_at(&stream[span.at..], standard)?;
    let seen = seen_picture(span.at, span.end, vbv_delay, facts);
    Ok(Some((seen, span.next)))
}
