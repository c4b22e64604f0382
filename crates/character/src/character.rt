// A received character and its error marks.
ghost use Rattle.std.specs.Prelude.{◌≡◌};
ghost use Rattle.character.specs.Character.{no_marks, or_marks, unmarked_of, no_character, break_character};

// "break, framing, parity": the marks that SR bits 7 to 5 show.
#[repr(C)]
#[derive(Clone, Copy)]
pub struct Marks {
    pub broken: bool,
    pub framing: bool,
    pub parity: bool,
}

// A character as the queue holds it.
#[repr(C)]
#[derive(Clone, Copy)]
pub struct Character {
    pub byte: u8,
    pub marks: Marks,
}

pub fn no_marks() -> Marks
    ensures { result ≡ no_marks }
{
    Marks {
        broken: false,
        framing: false,
        parity: false,
    }
}

// "the marks, each bit ORed"
pub fn or_marks(sums: Marks, marks: Marks) -> Marks
    ensures { result ≡ or_marks sums marks }
{
    Marks {
        broken: sums.broken | marks.broken,
        framing: sums.framing | marks.framing,
        parity: sums.parity | marks.parity,
    }
}

// A character whose marks command 4 has cleared.
pub fn unmarked(character: Character) -> Character
    ensures { result ≡ unmarked_of character }
{
    let cleared = no_marks();
    Character {
        byte: character.byte,
        marks: cleared,
    }
}

// What an unused place of a queue holds after a chip reset.
pub fn no_character() -> Character
    ensures { result ≡ no_character }
{
    let marks = no_marks();
    Character {
        byte: 0,
        marks: marks,
    }
}

// "a zero with the break mark alone"
pub fn break_character() -> Character
    ensures { result ≡ break_character }
{
    let mut zero = no_character();
    zero.marks.broken = true;
    zero
}
