// Where the walk to a fault stands in a text.
ghost use Rattle.std.specs.Prelude.{◌≡◌, ◌≢◌, ◌≤◌, true, false};
ghost use Rattle.sexpr_text.specs.Inner.Spot.{step, opened, closed};
ghost use Rattle.sexpr_text.specs.Inner.Spot.TextSpot.{Before, Inside, Quoted, Behind, Lost};
ghost use Rattle.sexpr_text.specs.Inner.Seen.{seen, is_room, fault_at_spot, ended};

use crate::TextKind;
use crate::scan::is_space_byte;

/// Where a reader stands. A list or a string knows how many lists may still begin inside one another there, and a string
/// whether its next byte is escaped.
#[derive(Clone, Copy, Debug, PartialEq, Eq)]
pub enum Stand {
    /// Before the list.
    Start,
    List(u8),
    Text(u8, bool),
    /// Behind the list.
    End,
    /// No text begins so.
    Off,
}

/// Behind an opening parenthesis.
fn opened_stand(room: u8) -> Stand
    requires { room ≤ 63 }
    ensures step { seen result ≡ opened room }
    ensures room { is_room result }
{
    if room == 0 {
        Stand::Off
    } else {
        Stand::List(room - 1)
    }
}

/// Behind a closing parenthesis.
fn closed_stand(room: u8) -> Stand
    requires { room ≤ 63 }
    ensures step { seen result ≡ closed room }
    ensures room { is_room result }
{
    if room == 63 {
        Stand::End
    } else {
        Stand::List(room + 1)
    }
}

fn in_list(room: u8, byte: u8) -> Stand
    requires { room ≤ 63 }
    ensures step { seen result ≡ step (Inside room) byte }
    ensures room { is_room result }
{
    if byte == b'(' {
        opened_stand(room)
    } else if byte == b')' {
        closed_stand(room)
    } else if byte == b'"' {
        Stand::Text(room, false)
    } else {
        Stand::List(room)
    }
}

fn in_text(room: u8, escaped: bool, byte: u8) -> Stand
    requires { room ≤ 63 }
    ensures step { seen result ≡ step (Quoted room escaped) byte }
    ensures room { is_room result }
{
    if escaped {
        Stand::Text(room, false)
    } else if byte == b'"' {
        Stand::List(room)
    } else {
        Stand::Text(room, byte == b'\\')
    }
}

fn at_start(byte: u8) -> Stand
    ensures step { seen result ≡ step Before byte }
    ensures room { is_room result }
{
    if is_space_byte(byte) {
        Stand::Start
    } else if byte == b'(' {
        Stand::List(63)
    } else {
        Stand::Off
    }
}

fn at_end(byte: u8) -> Stand
    ensures step { seen result ≡ step Behind byte }
    ensures room { is_room result }
{
    if is_space_byte(byte) {
        Stand::End
    } else {
        Stand::Off
    }
}

/// Where a byte leads.
pub fn follow(stand: Stand, byte: u8) -> Stand
    requires { is_room stand }
    ensures step { seen result ≡ step (seen stand) byte }
    ensures room { is_room result }
{
    match stand {
        Stand::Start => at_start(byte),
        Stand::List(room) => in_list(room, byte),
        Stand::Text(room, escaped) => in_text(room, escaped, byte),
        Stand::End => at_end(byte),
        Stand::Off => Stand::Off,
    }
}

pub fn is_off(stand: Stand) -> bool
    ensures yes { result ≡ true → seen stand ≡ Lost }
    ensures no { result ≡ false → seen stand ≢ Lost }
{
    match stand {
        Stand::Off => true,
        _ => false,
    }
}

fn kind_before(byte: u8) -> TextKind
    ensures { result ≡ fault_at_spot Before byte }
{
    if byte == b')' {
        TextKind::StrayClose
    } else if is_space_byte(byte) || byte == b'(' {
        TextKind::BadUtf8
    } else {
        TextKind::NotList
    }
}

fn kind_inside(room: u8, byte: u8) -> TextKind
    ensures { result ≡ fault_at_spot (Inside room) byte }
{
    if room == 0 && byte == b'(' {
        TextKind::TooDeep
    } else {
        TextKind::BadUtf8
    }
}

fn kind_behind(byte: u8) -> TextKind
    ensures { result ≡ fault_at_spot Behind byte }
{
    if is_space_byte(byte) {
        TextKind::BadUtf8
    } else {
        TextKind::After
    }
}

/// The kind of a fault at a byte.
pub fn kind_at(stand: Stand, byte: u8) -> TextKind
    ensures { result ≡ fault_at_spot (seen stand) byte }
{
    match stand {
        Stand::Start => kind_before(byte),
        Stand::List(room) => kind_inside(room, byte),
        Stand::End => kind_behind(byte),
        Stand::Text(_, _) | Stand::Off => TextKind::BadUtf8,
    }
}

/// The kind of a fault at the end of the input, if it is no text.
pub fn kind_at_end(stand: Stand) -> Option<TextKind>
    ensures { result ≡ ended (seen stand) }
{
    match stand {
        Stand::Start => Some(TextKind::Empty),
        Stand::List(_) => Some(TextKind::Unclosed),
        Stand::Text(_, _) => Some(TextKind::BadString),
        Stand::End | Stand::Off => None,
    }
}
