// A whole text.
ghost use Rattle.std.specs.Prelude.{◌≤◌, ◌≡◌, length, IfSome, IfOk};
ghost use Rattle.vcd_read.specs.Scan.{few, header_read, judged, scan_of};

use crate::checking::{Checked, Times, check};
use crate::named::{code_named, codes_of, twice};
use crate::wires::{after, wires_in};
use refusal::Refusal;

// A header in the subset: the codes of the two wires that are named, and where the lines after it begin.
#[derive(Clone, Copy)]
pub struct Header {
    pub code_a: u8,
    pub code_b: u8,
    pub body: usize,
}

// What is known of a text.
// Kept: the fields of `Header` with the times, for the clause `within` of `scan` is of its own `body`.
#[derive(Clone, Copy)]
pub struct Scanned {
    pub code_a: u8,
    pub code_b: u8,
    pub body: usize,
    pub times: Times,
}

fn is_few(count: usize) -> bool
    ensures { result ≡ few count }
{
    (1..=16).contains(&count)
}

// "1 to 16 wires", "each once", and no "named wire missing".
fn read_header(text: &[u8], name_a: &[u8], name_b: &[u8]) -> Option<Header>
    ensures read { result ≡ header_read text.now name_a.now name_b.now }
    ensures within { IfSome result (λ h. h.body ≤ length text.now) }
{
    if !text.starts_with(b"$timescale 1 ns $end\n$scope module duart $end\n") {
        return None;
    }
    let wires = wires_in(text);
    if !is_few(wires.count()) {
        return None;
    }
    if twice(wires) {
        return None;
    }
    let body = after(wires).strip_prefix(b"$upscope $end\n$enddefinitions $end\n")?;
    let code_a = code_named(wires, name_a)?;
    let code_b = code_named(wires, name_b)?;
    Some(Header {
        code_a,
        code_b,
        body: text.len() - body.len(),
    })
}

// A text inside ends with a line's end.
fn judge(header: Header, checked: Checked) -> Result<Scanned, Refusal>
    ensures { result ≡ judged header checked }
{
    if !checked.reading.is_at_line_start() {
        return Err(Refusal::TextOutside);
    }
    if checked.times.late {
        return Err(Refusal::TimeNotLater);
    }
    Ok(Scanned {
        code_a: header.code_a,
        code_b: header.code_b,
        body: header.body,
        times: checked.times,
    })
}

// "10 text outside the subset or a named wire missing, 11 a time not later than the one before"
pub fn scan(text: &[u8], name_a: &[u8], name_b: &[u8]) -> Result<Scanned, Refusal>
    ensures scanned { result ≡ scan_of text.now name_a.now name_b.now }
    ensures within { IfOk result (λ s. s.body ≤ length text.now) }
{
    let header = read_header(text, name_a, name_b).ok_or(Refusal::TextOutside)?;
    let codes = codes_of(wires_in(text));
    judge(header, check(&text[header.body..], &codes))
}
