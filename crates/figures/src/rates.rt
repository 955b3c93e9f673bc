// The figures of request 02 (paper 02, 'Rates with extensions'): frame rates of a code, n and d, which of them have one value, and the
// targets that follow.
use rate_control::{CbrConfig, CbrWriter};
use std::io;
use vbv::{VbvError, VbvParams, frame_rate_value, params_of};
use verify::{VbvMode, VbvStandard};

// Codes 1 to 8, n 0 to 3, d 0 to 31.
const TRIPLES: u16 = 1024;

// A code with its extensions.
#[derive(Clone, Copy)]
struct Triple {
    code: u8,
    n: u8,
    d: u8,
}

fn triple_at(k: u16) -> Triple {
    Triple {
        code: (k / 128 % 8 + 1) as u8,
        n: (k / 32 % 4) as u8,
        d: (k % 32) as u8,
    }
}

fn print_triple(rt: &impl Print, t: Triple) -> io::Result<()> {
    print!(rt; "{} {} {}", t.code, t.n, t.d)
}

// A rate, or the number of its refusal.
fn print_rate(rt: &impl Print, code: u8, n: u8, d: u8) -> io::Result<()> {
    print_triple(rt, Triple { code, n, d })?;
    match frame_rate_value(code, n, d) {
        Ok((frn, frd)) => println!(rt; ": {frn}/{frd}"),
        Err(error) => println!(rt; ": refused {}", error.number()),
    }
}

// Fields 2500 and 20 with the frame rate of a triple.
fn params(t: Triple) -> Result<VbvParams, VbvError> {
    let (frn, frd) = frame_rate_value(t.code, t.n, t.d)?;
    Ok(params_of(2500, 20, frn, frd))
}

// Whether two triples have one value.
fn same(a: Triple, b: Triple) -> bool {
    match (params(a), params(b)) {
        (Ok(p), Ok(q)) => p.same(q),
        _ => false,
    }
}

// Whether a triple before k has its value.
fn met_before(k: u16) -> bool {
    (0..k).any(|j| same(triple_at(j), triple_at(k)))
}

fn count_values() -> usize {
    (0..TRIPLES).filter(|k| !met_before(*k)).count()
}

// The triples of a triple's value.
fn print_same(rt: &impl Print, of: Triple) -> io::Result<()> {
    for k in 0..TRIPLES {
        let t = triple_at(k);
        if same(of, t) {
            print_triple(rt, t)?;
            rt.print("\n")?;
        }
    }
    Ok(())
}

// Fields 2500 and 20, two B pictures between anchors, four anchors.
fn print_targets(rt: &impl Print, code: u8, n: u8, d: u8) -> io::Result<()> {
    let made = CbrWriter::create(CbrConfig {
        mode: VbvMode::plain(VbvStandard::Mpeg2),
        bit_rate_value: 2500,
        vbv_buffer_size_value: 20,
        frame_rate_code: code,
        frame_rate_extension_n: n,
        frame_rate_extension_d: d,
        initial_quantiser_scale_code: 1,
        b_between: 2,
        anchors_per_gop: 4,
    });
    print_triple(rt, Triple { code, n, d })?;
    match made {
        Ok(writer) => {
            let [i, p, b] = writer.target_bits;
            println!(rt; ": {i} {p} {b}")
        }
        Err(error) => println!(rt; ": refused {}", error.number()),
    }
}

fn print_lookups(rt: &impl Print) -> io::Result<()> {
    rt.print("frame rate of code, n and d\n")?;
    print_rate(rt, 7, 3, 31)?;
    print_rate(rt, 6, 0, 1)?;
    print_rate(rt, 3, 1, 1)?;
    print_rate(rt, 9, 4, 0)?;
    print_rate(rt, 9, 0, 32)?;
    print_rate(rt, 9, 0, 0)
}

pub(crate) fn print_rates(rt: &impl Print) -> io::Result<()> {
    print_lookups(rt)?;
    rt.print("values of the 1024 triples\n")?;
    print!(rt; "{}", count_values())?;
    rt.print("\ntriples of the value 25\n")?;
    print_same(
        rt,
        Triple {
            code: 3,
            n: 0,
            d: 0,
        },
    )?;
    rt.print("targets of I, P and B, fields 2500 and 20, 2 and 4\n")?;
    print_targets(rt, 3, 0, 0)?;
    print_targets(rt, 3, 1, 1)?;
    print_targets(rt, 6, 0, 1)?;
    print_targets(rt, 9, 4, 0)?;
    print_targets(rt, 9, 0, 0)
}
