// A picture's delay, and what its headers tell of how long it lasts.
ghost use Rattle.std.specs.Prelude.{◌≡◌};
ghost use Rattle.headers.specs.Answers.{header_answer};
ghost use Rattle.picture_header.specs.Facts.{is_anchor, is_field, facts_by, header_told, picture_told};

use crate::{
    Mpeg2PictureHeader, PictureCodingType, PictureFacts, PictureStructure, coding_type_of,
    delay_in, extra_bit, long_word, picture_structure_of, type_in, usual_coding, usual_header,
    word,
};
use headers::Error;

// An I or P picture.
#[tactic(auto, unfolding(crate::specs::Facts::is_anchor))]
pub fn is_anchor(coding_type: PictureCodingType) -> bool
    ensures { result ≡ is_anchor coding_type }
{
    matches!(
        coding_type,
        PictureCodingType::Intra | PictureCodingType::Predictive
    )
}

#[tactic(auto, unfolding(crate::specs::Facts::is_field))]
pub fn is_field(structure: PictureStructure) -> bool
    ensures { result ≡ is_field structure }
{
    matches!(
        structure,
        PictureStructure::TopField | PictureStructure::BottomField
    )
}

// What they tell together.
#[tactic(auto, unfolding(crate::specs::Facts::facts_by))]
fn facts(
    coding_type: PictureCodingType,
    structure: PictureStructure,
    repeat: bool,
    top: bool,
) -> PictureFacts
    ensures { result ≡ facts_by coding_type structure repeat top }
{
    PictureFacts {
        anchor: is_anchor(coding_type),
        field: is_field(structure),
        repeat,
        top,
    }
}

// What a picture header alone tells (MPEG-1, where all pictures are frames). One without extra information is not parsed:
// delay and type are taken from the number w in bits 32 to 71. (So it is below; by parsing alone the check was half as fast as
// was asked: docs/SPEED.md, 'What was asked'.)
#[tactic(auto, unfolding(crate::specs::Facts::header_told))]
pub fn told(buf: &[u8]) -> Result<(u16, PictureFacts), Error>
    ensures { header_answer result ≡ header_told buf.now }
{
    if 9 <= buf.len() {
        let w = long_word(buf, 4);
        if usual_header(word(buf, 0), w) {
            let vbv_delay = delay_in(w);
            let coding_type = coding_type_of(type_in(w));
            return Ok((
                vbv_delay,
                facts(coding_type, PictureStructure::Frame, false, false),
            ));
        }
    }
    let header = Mpeg2PictureHeader::parse(buf)?;
    Ok((
        header.vbv_delay,
        facts(
            header.picture_coding_type,
            PictureStructure::Frame,
            false,
            false,
        ),
    ))
}

// What a picture header and its extension tell. Where no extra information follows, and the extension begins at the byte
// `at` at which the header ends, neither is parsed: all is taken from w and from the number x in bits 32 to 71 of the
// extension.
#[tactic(auto, unfolding(crate::specs::Facts::picture_told, crate::specs::Facts::facts_of))]
pub fn told_with_extension(buf: &[u8]) -> Result<(u16, PictureFacts), Error>
    ensures { header_answer result ≡ picture_told buf.now }
{
    if 18 <= buf.len() {
        let w = long_word(buf, 4);
        let code = type_in(w);
        if usual_header(word(buf, 0), w) & (code <= 3) {
            let at = (usize::from(extra_bit(code)) + 8) / 8;
            let x = long_word(buf, at + 4);
            if usual_coding(word(buf, at), x) {
                let vbv_delay = delay_in(w);
                let coding_type = coding_type_of(code);
                let structure = picture_structure_of(((x >> 16) % 4) as u32);
                let top = (x >> 15) % 2 == 1;
                let repeat = (x >> 9) % 2 == 1;
                return Ok((vbv_delay, facts(coding_type, structure, repeat, top)));
            }
        }
    }
    let (header, extension) = Mpeg2PictureHeader::parse_with_extension(buf)?;
    Ok((
        header.vbv_delay,
        facts(
            header.picture_coding_type,
            extension.picture_structure,
            extension.repeat_first_field,
            extension.top_field_first,
        ),
    ))
}
