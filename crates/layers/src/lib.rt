// Headers and picture layers that an encoder offers: whether they fit (paper 01, 'A placed picture').
#![tactic(auto)]

ghost use Rattle.std.specs.Prelude.{◌≡◌, ℕ, Bool, ◌&&◌, eqb, leb, drop};
ghost use Rattle.bits.specs.Refusals.{value};
ghost use Rattle.headers.specs.StartCode.{leading_zeros};
ghost use Rattle.picture_header.specs.PictureHeader.{picture_header, picture_header_bytes};
ghost use Rattle.scan.specs.Codes.{codes, codes_at, every, ends_prefix};
ghost use Rattle.scan.specs.Pictures.{skip, Decides};
ghost use Rattle.layers.specs.Headers.{opens_headers, header_code, declares as declares_them, sequence_first, sequence_fits, headers_fit};
ghost use Rattle.layers.specs.Layer.{same_kind, agrees as agrees_with, flag_clear, code_seven, padding, header_fits, slices, is_extension, layer_codes, layer_fits, facts_in};

use bits::start_codes::{
    EXTENSION_START_CODE, GROUP_START_CODE, SEQUENCE_HEADER_CODE, START_CODE_PREFIX,
    USER_DATA_START_CODE,
};
use picture_header::{Mpeg2PictureHeader, PictureCodingType, PictureFacts};
use pictures::{VbvStandard, declared_by};
use scan::{first_code_not, is_slice};
use vbv::{RemovalInterval, VbvParams};

// Which kind of picture is offered.
#[derive(Clone, Copy, PartialEq, Eq)]
pub enum PictureKind {
    I,
    P,
    B,
}

// B2, B3, B5 and B8.
#[tactic(auto, unfolding(crate::specs::Headers::header_code))]
fn header_code(code: u8) -> bool
    ensures { result ≡ header_code code }
{
    (code == USER_DATA_START_CODE)
        | ((code == SEQUENCE_HEADER_CODE)
            | ((code == EXTENSION_START_CODE) | (code == GROUP_START_CODE)))
}

// B5 and B2.
#[tactic(auto, unfolding(crate::specs::Layer::is_extension))]
fn is_extension(code: u8) -> bool
    ensures { result ≡ is_extension code }
{
    (code == EXTENSION_START_CODE) | (code == USER_DATA_START_CODE)
}

// Whether all codes pass that a scan from `from` finds.
fn all_codes<F: Fn(u8) -> bool>(s: &[u8], from: usize, passes: F) -> bool
    requires { F.IsAlwaysCallable passes }
    ensures { (p : ℕ → Bool) → Decides (F.post passes) p → result ≡ every p (codes_at s.now from) }
{
    first_code_not(s, from, passes).is_none()
}

// Whether the bytes end 00 00 01.
fn ends_prefix(s: &[u8]) -> bool
    ensures { result ≡ ends_prefix s.now }
{
    s.ends_with(&START_CODE_PREFIX)
}

// Empty, or starting 00 00 01.
fn opens_headers(headers: &[u8]) -> bool
    ensures { result ≡ opens_headers headers.now }
{
    headers.is_empty() | headers::prefix_at(headers, 0)
}

// B3 exactly once, at byte 0.
fn sequence_first(headers: &[u8]) -> bool
    ensures { result ≡ sequence_first (codes headers.now) }
{
    let Some(first) = scan::next_code(headers, 0) else {
        return false;
    };
    let others = all_codes(
        headers,
        first.offset + 4,
        |code| code != SEQUENCE_HEADER_CODE,
    );
    (first.offset == 0) & ((first.code == SEQUENCE_HEADER_CODE) & others)
}

// Whether the sequence that headers begin with declares the parameters.
fn declares(headers: &[u8], params: VbvParams) -> bool
    ensures { result ≡ declares_them params headers.now }
{
    match declared_by(headers, VbvStandard::Mpeg2) {
        Ok(declared) => params.same(declared),
        Err(_) => false,
    }
}

// What headers say of the sequence: B3 with the parameters until a picture is placed, and none after that.
fn sequence_fits(headers: &[u8], params: VbvParams, placed: bool) -> bool
    ensures { result ≡ sequence_fits params placed headers.now }
{
    if placed {
        return all_codes(headers, 0, |code| code != SEQUENCE_HEADER_CODE);
    }
    sequence_first(headers) & declares(headers, params)
}

// Whether headers fit before a picture; `placed`: one was placed before.
pub fn headers_fit(headers: &[u8], params: VbvParams, placed: bool) -> bool
    ensures { result ≡ headers_fit params placed headers.now }
{
    opens_headers(headers)
        & (all_codes(headers, 0, header_code)
            & (!ends_prefix(headers) & sequence_fits(headers, params, placed)))
}

// Whether a picture's type is the kind.
#[tactic(auto, unfolding(crate::specs::Layer::same_kind))]
fn same_kind(kind: PictureKind, coded: PictureCodingType) -> bool
    ensures { result ≡ same_kind kind coded }
{
    matches!(
        (kind, coded),
        (PictureKind::I, PictureCodingType::Intra)
            | (PictureKind::P, PictureCodingType::Predictive)
            | (PictureKind::B, PictureCodingType::Bidirectional)
    )
}

// Whether a picture's structure agrees with the offered interval.
#[tactic(auto, unfolding(crate::specs::Layer::agrees))]
fn agrees(offered: RemovalInterval, field: bool) -> bool
    ensures { result ≡ agrees_with offered field }
{
    matches!(
        (offered, field),
        (RemovalInterval::Frame, false) | (RemovalInterval::Field, true)
    )
}

// A full-pel flag is 0, where the type has it.
#[tactic(auto, unfolding(crate::specs::Layer::flag_clear))]
fn flag_clear(flag: Option<bool>) -> bool
    ensures { result ≡ flag_clear flag }
{
    match flag {
        Some(f) => !f,
        None => true,
    }
}

// A vector's code is 7, where the type has it.
#[tactic(auto, unfolding(crate::specs::Layer::code_seven))]
fn code_seven(code: Option<u8>) -> bool
    ensures { result ≡ code_seven code }
{
    match code {
        Some(c) => c == 7,
        None => true,
    }
}

// Whether the bits that pad a picture header to a byte are zero. Its last bit is bit `last` of the slice from byte n on.
fn padding_clear(layer: &[u8], header: Mpeg2PictureHeader) -> bool
    requires { picture_header layer.now ≡ value header }
    ensures { result ≡ eqb (padding layer.now header) 0 }
{
    let n = header.extra_information_bytes;
    let bit = header.extra_information_bit as usize;
    let last = bit + n;
    bits::read_bits(&layer[n..], last + 1, 7 - last % 8) == Some(0)
}

// Whether two zero bytes follow a picture header.
fn zeros_after(layer: &[u8], header: Mpeg2PictureHeader) -> bool
    requires { picture_header layer.now ≡ value header }
    ensures { result ≡ leb 2 (leading_zeros (drop (picture_header_bytes header) layer.now)) }
{
    let n = header.extra_information_bytes;
    let bit = header.extra_information_bit as usize;
    bits::bytes_at(layer, n + (bit + n + 8) / 8, &[0, 0])
}

// The full-pel flags are 0 and their codes 7.
fn vectors_fit(header: Mpeg2PictureHeader) -> bool
    ensures { result ≡ (flag_clear header.full_pel_forward_vector && (code_seven header.fwd_f_code && (flag_clear header.full_pel_backward_vector && code_seven header.bwd_f_code))) }
{
    flag_clear(header.full_pel_forward_vector)
        & (code_seven(header.fwd_f_code)
            & (flag_clear(header.full_pel_backward_vector) & code_seven(header.bwd_f_code)))
}

// What the picture header and its extension tell.
fn header_fits(layer: &[u8], film: bool, kind: PictureKind, interval: RemovalInterval) -> bool
    ensures { result ≡ header_fits film kind interval layer.now }
{
    let Ok((header, extension)) = Mpeg2PictureHeader::parse_with_extension(layer) else {
        return false;
    };
    let field = picture_header::is_field(extension.picture_structure);
    same_kind(kind, header.picture_coding_type)
        & (agrees(interval, field)
            & ((film | !extension.repeat_first_field)
                & (vectors_fit(header)
                    & (padding_clear(layer, header) & zeros_after(layer, header)))))
}

// Any of B5 and B2, then at least one slice and only slices, of the codes that a scan from `from` finds.
fn slices_after(layer: &[u8], from: usize) -> bool
    ensures { result ≡ slices (skip is_extension (codes_at layer.now from)) }
{
    let Some(first) = first_code_not(layer, from, is_extension) else {
        return false;
    };
    is_slice(first.code) & all_codes(layer, first.offset + 4, is_slice)
}

// 00 once at byte 0, then extensions, then slices.
fn layer_codes(layer: &[u8]) -> bool
    ensures { result ≡ layer_codes (codes layer.now) }
{
    let Some(first) = scan::next_code(layer, 0) else {
        return false;
    };
    (first.offset == 0) & ((first.code == 0) & slices_after(layer, first.offset + 4))
}

// Whether the layer of a picture of this kind and interval fits; a film writer takes repeat_first_field.
pub fn layer_fits(layer: &[u8], film: bool, kind: PictureKind, interval: RemovalInterval) -> bool
    ensures { result ≡ layer_fits film kind interval layer.now }
{
    header_fits(layer, film, kind, interval) & (layer_codes(layer) & !ends_prefix(layer))
}

// The facts that a layer's headers tell; a B frame's, without flags, where they are refused.
pub fn layer_facts(layer: &[u8]) -> PictureFacts
    ensures { result ≡ facts_in layer.now }
{
    let Ok((header, extension)) = Mpeg2PictureHeader::parse_with_extension(layer) else {
        return PictureFacts {
            anchor: false,
            field: false,
            repeat: false,
            top: false,
        };
    };
    PictureFacts {
        anchor: picture_header::is_anchor(header.picture_coding_type),
        field: picture_header::is_field(extension.picture_structure),
        repeat: extension.repeat_first_field,
        top: extension.top_field_first,
    }
}
