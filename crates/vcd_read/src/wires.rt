// The wires of a header, one after the other as they stand in the text.
ghost use Rattle.std.specs.Prelude.{◌≡◌, length, drop};
ghost use Rattle.std.specs.Iterator.{item_count};
ghost use Rattle.vcd_read.specs.Wires.{name_of, named, IsWireAt, left, beyond, GivesWire, wires_in, wires_over};

// A wire, by its line.
#[derive(Clone, Copy)]
pub struct WireHere<'a> {
    pub code: u8,
    pub name: &'a [u8],
}

// How many visible characters a text begins with, at most 33.
fn name_length(text: &[u8]) -> usize
    ensures { result ≡ length (name_of 33 text.now) }
{
    text.iter()
        .take(33)
        .take_while(|byte| byte.is_ascii_graphic())
        .count()
}

fn is_named(length: usize) -> bool
    ensures { result ≡ named length }
{
    (1..=32).contains(&length)
}

// The wire whose line a text begins with, if one does, and the text after the line.
fn wire_at<'a>(text: &'a [u8]) -> Option<(WireHere<'a>, &'a [u8])>
    ensures { IsWireAt text.now result }
{
    let from_code = text.strip_prefix(b"$var wire 1 ")?;
    let (code, after_code) = from_code.split_first()?;
    if !code.is_ascii_graphic() {
        return None;
    }
    let from_name = after_code.strip_prefix(b" ")?;
    let (name, after_name) = from_name.split_at(name_length(from_name));
    if !is_named(name.len()) {
        return None;
    }
    let rest = after_name.strip_prefix(b" $end\n")?;
    Some((WireHere { code: *code, name }, rest))
}

// The wires that a text begins with, at most so many.
#[derive(Clone, Copy)]
pub struct Wires<'a> {
    pub most: usize,
    pub rest: &'a [u8],
}

impl<'a> Iterator for Wires<'a> {
    type Item = WireHere<'a>;

    ghost next_gives = { GivesWire };

    ghost remaining = { item_count left };

    fn next(&mut self) -> Option<WireHere<'a>> {
        if self.most == 0 {
            return None;
        }
        let (wire, rest) = wire_at(self.rest)?;
        self.most -= 1;
        self.rest = rest;
        Some(wire)
    }
}

// The wires of a text: they begin with its 47th byte, and 17 stand for that and more.
pub fn wires_in<'a>(text: &'a [u8]) -> Wires<'a>
    ensures wires { left result ≡ wires_in text.now }
    ensures after { beyond result ≡ drop (wires_over text.now) text.now }
{
    Wires {
        most: 17,
        rest: &text[text.len().min(46)..],
    }
}

// The text after the wires.
pub fn after<'a>(mut wires: Wires<'a>) -> &'a [u8]
    ensures { result.now ≡ beyond wires.entry }
{
    // Kept: a `while`, for what the iterator has left over is the answer, and a `for` would go over a copy of it.
    while wires.next().is_some() {}
    wires.rest
}
