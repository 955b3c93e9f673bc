// The figures of request 05 (paper 02, 'Film material'): how many field periods pictures last, in each of the four sequences, and a
// channel that a film writer sends. I P B are frames, i p b fields; ' is repeat_first_field, ^ top_field_first, " both.
use cadence::VbvCadence;
use cases::take::byte;
use picture_header::PictureFacts;
use std::io;
use vbv::periods;

fn is_picture(letter: u8) -> bool {
    matches!(letter, b'I' | b'P' | b'B' | b'i' | b'p' | b'b')
}

// What a picture shows, by its letter and what stands after it.
pub(crate) fn facts(letter: u8, mark: u8) -> PictureFacts {
    PictureFacts {
        anchor: letter != b'B' && letter != b'b',
        field: b'b' <= letter,
        repeat: mark == b'\'' || mark == b'"',
        top: mark == b'^' || mark == b'"',
    }
}

// Prints the periods of a list of pictures.
fn print_periods(
    rt: &impl Print,
    letters: &[u8],
    progressive: bool,
    low_delay: bool,
) -> io::Result<()> {
    let mut k = VbvCadence::opened(true, progressive, low_delay);
    for (at, letter) in letters.iter().enumerate() {
        if is_picture(*letter) {
            let shown = facts(*letter, byte(letters, at + 1));
            print!(rt; " {}", periods(k.interval(shown)))?;
            k = k.after(shown);
        }
    }
    Ok(())
}

// In an interlaced sequence, with low_delay 1, in a progressive one, with low_delay 1.
fn print_list(rt: &impl Print, list: &str) -> io::Result<()> {
    let letters = list.as_bytes();
    print!(rt; "{list}:")?;
    print_periods(rt, letters, false, false)?;
    rt.print(",")?;
    print_periods(rt, letters, false, true)?;
    rt.print(",")?;
    print_periods(rt, letters, true, false)?;
    rt.print(",")?;
    print_periods(rt, letters, true, true)?;
    rt.print("\n")
}

const FRAMES: [&str; 7] = [
    "I' P P",
    "I' B' P",
    "B' I",
    "I\" P",
    "I^ P",
    "I\" B\" P",
    "I' P' B' B P B' P",
];

const FIELDS: [&str; 9] = [
    "I' ip P", "I' p P", "I' p B P", "I' bb P", "I' b P", "I' pb P", "I' bp P", "ip P", "I' ppp P",
];

pub(crate) fn print_film(rt: &impl Print) -> io::Result<()> {
    rt.print(
        "field periods: interlaced, low_delay 1, progressive, progressive with low_delay 1\n",
    )?;
    for list in FRAMES {
        print_list(rt, list)?;
    }
    for list in FIELDS {
        print_list(rt, list)?;
    }
    Ok(())
}
