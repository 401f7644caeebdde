// What the fields of paragraphs and index marks may hold.
ghost use Rattle.std.specs.Prelude.{◌≡◌};
ghost use Rattle.kinds.specs.Rules.{emphasis_fits, is_office, is_printable, is_term, lines_fit, printable_then_zeros, text_fits};
ghost use Rattle.kinds.specs.States.{state_number};

use crate::state::State;

pub fn is_office(b: u8) -> bool
    ensures { result ≡ is_office b }
{
    (1..=250).contains(&b)
}

pub fn lines_fit(state: State, lines: u8) -> bool
    ensures { result ≡ lines_fit (state_number state) lines }
{
    match state {
        State::Set => (1..=200).contains(&lines),
        State::Cut => lines == 0,
    }
}

pub fn text_fits(state: State, text: u32) -> bool
    ensures { result ≡ text_fits (state_number state) text }
{
    match state {
        State::Set => true,
        State::Cut => text == 0,
    }
}

pub fn emphasis_fits(state: State, emphasis: u8) -> bool
    ensures { result ≡ emphasis_fits (state_number state) emphasis }
{
    match state {
        State::Set => emphasis <= 1,
        State::Cut => emphasis == 0,
    }
}

fn is_printable(b: u8) -> bool
    ensures { result ≡ is_printable b }
{
    (b' '..=b'~').contains(&b)
}

// Whether the bytes of a term field are a term: printable, no space in front, and then zeros.
pub fn is_term(field: &[u8]) -> bool
    ensures { result ≡ is_term field.now }
{
    match field {
        [] => false,
        [first, rest @ ..] => first.is_ascii_graphic() && printable_then_zeros(rest),
    }
}

fn printable_then_zeros(bytes: &[u8]) -> bool
    ensures { result ≡ printable_then_zeros bytes.now }
{
    bytes
        .iter()
        .skip_while(|b| is_printable(**b))
        .all(|b| *b == 0)
}
