// The one line that a run complains, kept in a fixed place: it takes no memory.
ghost use Rattle.std.specs.Prelude.{◌≡◌, ◌+◌, ◌≤◌, ◌++◌, ◌∷◌, [], length};
ghost use Rattle.std.specs.Fmt.{decimal};
ghost use Rattle.arrayvec.specs.ArrayVec.{array_vec_len};
ghost use lib.Chars.{codes};
ghost use Rattle.run_rules.specs.Complaint.{complaint_of, text_kind, offence_kind, edit_kind, role_name, line_kind, refusal_text};

use crate::ended::{Ended, Role};
use arrayvec::ArrayVec;
use board_language::{Offence, OffenceKind};
use edit_language::{EditKind, EditRefusal};
use itoa::Buffer;
use sexpr_text::TextKind;

/// A line of at most 160 bytes.
pub type Line = ArrayVec<u8, 160>;

fn add(line: &mut Line, bytes: &[u8])
    requires { array_vec_len line.old + length bytes.now ≤ 160 }
    ensures items { line.new.items ≡ line.old.items ++ bytes.now }
    ensures len { array_vec_len line.new ≡ array_vec_len line.old + length bytes.now }
{
    let _ = line.try_extend_from_slice(bytes);
}

/// A line of three parts.
fn line_of(first: &[u8], second: &[u8], third: &[u8]) -> Line
    requires { length first.now + (length second.now + length third.now) ≤ 160 }
    ensures { result.items ≡ first.now ++ (second.now ++ third.now) }
{
    let mut line = Line::new();
    add(&mut line, first);
    add(&mut line, second);
    add(&mut line, third);
    line
}

fn role_bytes(role: Role) -> &'static [u8]
    ensures name { result.now ≡ role_name role }
    ensures short { length result.now ≤ 5 }
{
    match role {
        Role::In => b"IN",
        Role::Edits => b"EDITS",
    }
}

fn text_kind_bytes(kind: TextKind) -> &'static [u8]
    ensures name { result.now ≡ text_kind kind }
    ensures short { length result.now ≤ 14 }
{
    match kind {
        TextKind::Empty => b"Empty",
        TextKind::BadString => b"BadString",
        TextKind::Unclosed => b"Unclosed",
        TextKind::StrayClose => b"StrayClose",
        TextKind::NotList => b"NotList",
        TextKind::After => b"After",
        TextKind::TooDeep => b"TooDeep",
        TextKind::BadUtf8 => b"BadUtf8",
    }
}

fn offence_kind_bytes(kind: OffenceKind) -> &'static [u8]
    ensures name { result.now ≡ offence_kind kind }
    ensures short { length result.now ≤ 14 }
{
    match kind {
        OffenceKind::NotBoard => b"NotBoard",
        OffenceKind::Version => b"Version",
        OffenceKind::CurvedTrack => b"CurvedTrack",
        OffenceKind::CopperGraphic => b"CopperGraphic",
        OffenceKind::FootprintEdge => b"FootprintEdge",
        OffenceKind::FootprintZone => b"FootprintZone",
        OffenceKind::EdgeCurve => b"EdgeCurve",
        OffenceKind::Teardrop => b"Teardrop",
        OffenceKind::HatchFill => b"HatchFill",
        OffenceKind::Smoothing => b"Smoothing",
        OffenceKind::IslandArea => b"IslandArea",
        OffenceKind::ManyOutlines => b"ManyOutlines",
        OffenceKind::PolygonArc => b"PolygonArc",
        OffenceKind::PadType => b"PadType",
        OffenceKind::PadShape => b"PadShape",
        OffenceKind::PadOffset => b"PadOffset",
        OffenceKind::MissingPart => b"MissingPart",
        OffenceKind::Number(_) => b"Number",
        OffenceKind::Angle => b"Angle",
        OffenceKind::BadSize => b"BadSize",
        OffenceKind::Thin => b"Thin",
        OffenceKind::DoubleLayer => b"DoubleLayer",
        OffenceKind::UnknownLayer => b"UnknownLayer",
        OffenceKind::DoubleNet => b"DoubleNet",
        OffenceKind::UnknownNet => b"UnknownNet",
        OffenceKind::DoubleStamp => b"DoubleStamp",
        OffenceKind::Outline(_) => b"Outline",
        OffenceKind::TooMany => b"TooMany",
    }
}

fn edit_kind_bytes(kind: EditKind) -> &'static [u8]
    ensures name { result.now ≡ edit_kind kind }
    ensures short { length result.now ≤ 14 }
{
    match kind {
        EditKind::TooLong => b"TooLong",
        EditKind::BadWord => b"BadWord",
        EditKind::TooFewWords => b"TooFewWords",
        EditKind::TooManyWords => b"TooManyWords",
        EditKind::BadNumber => b"BadNumber",
    }
}

fn add_number(line: &mut Line, number: u64)
    requires { array_vec_len line.old ≤ 100 }
    ensures items { line.new.items ≡ line.old.items ++ decimal number }
    ensures len { array_vec_len line.new ≤ array_vec_len line.old + 20 }
{
    let mut digits = Buffer::new();
    add(line, digits.format(number).as_bytes());
}

/// A line about a number.
fn number_line(first: &[u8], number: u64, last: &[u8]) -> Line
    requires { length first.now + length last.now ≤ 80 }
    ensures { result.items ≡ first.now ++ (decimal number ++ last.now) }
{
    let mut digits = Buffer::new();
    line_of(first, digits.format(number).as_bytes(), last)
}

/// A line about a place in a text.
fn place_line(at: u64, kind: TextKind) -> Line
    ensures { result.items ≡ codes "zonefill: byte "
        ++ (decimal at ++ (codes ": " ++ (text_kind kind ++ codes "\n"))) }
{
    let mut line = Line::new();
    add(&mut line, b"zonefill: byte ");
    add_number(&mut line, at);
    add(&mut line, b": ");
    add(&mut line, text_kind_bytes(kind));
    add(&mut line, b"\n");
    line
}

/// Adds on which line something is wrong, and what.
fn add_line_kind(line: &mut Line, number: u64, kind: &[u8])
    requires room { array_vec_len line.old ≤ 70 }
    requires short { length kind.now ≤ 14 }
    ensures { line.new.items ≡ line.old.items ++ line_kind number kind.now }
{
    add(line, b"line ");
    add_number(line, number);
    add(line, b": ");
    add(line, kind);
    add(line, b"\n");
}

fn offence_line(offence: Offence) -> Line
    ensures { result.items ≡ codes "zonefill: "
        ++ line_kind offence.line (offence_kind offence.kind) }
{
    let mut line = Line::new();
    add(&mut line, b"zonefill: ");
    add_line_kind(&mut line, offence.line, offence_kind_bytes(offence.kind));
    line
}

fn script_line(number: u64, kind: EditKind) -> Line
    ensures { result.items ≡ codes "zonefill: EDITS " ++ line_kind number (edit_kind kind) }
{
    let mut line = Line::new();
    add(&mut line, b"zonefill: EDITS ");
    add_line_kind(&mut line, number, edit_kind_bytes(kind));
    line
}

/// Adds why an edit is refused.
fn add_refusal(line: &mut Line, refusal: EditRefusal)
    requires { array_vec_len line.old ≤ 70 }
    ensures { line.new.items ≡ line.old.items ++ refusal_text refusal }
{
    match refusal {
        EditRefusal::NoStamp => add(line, b"NoStamp\n"),
        EditRefusal::WrongKind => add(line, b"WrongKind\n"),
        EditRefusal::StampTaken => add(line, b"StampTaken\n"),
        EditRefusal::Breaks(offence) => {
            add_line_kind(line, offence.line, offence_kind_bytes(offence.kind))
        }
    }
}

fn edit_line(index: u32, refusal: EditRefusal) -> Line
    ensures { result.items ≡ codes "zonefill: edit "
        ++ (decimal index ++ (codes ": " ++ refusal_text refusal)) }
{
    let mut line = Line::new();
    add(&mut line, b"zonefill: edit ");
    add_number(&mut line, index as u64);
    add(&mut line, b": ");
    add_refusal(&mut line, refusal);
    line
}

/// What a run that ended so complains.
pub fn complaint(ended: &Ended) -> Line
    ensures { result.items ≡ complaint_of ended.now }
{
    match *ended {
        Ended::Done { .. } => line_of(b"", b"", b""),
        Ended::Usage(_) => line_of(
            b"zonefill: usage: fill IN OUT, refill IN EDITS OUT, report IN, generate SEED SIZE OUT\n",
            b"",
            b"",
        ),
        Ended::TooLong { role, .. } => line_of(b"zonefill: ", role_bytes(role), b" is too long\n"),
        Ended::BadText(fault) => place_line(fault.at as u64, fault.kind),
        Ended::Refused(offence) => offence_line(offence),
        Ended::BadScript(fault) => script_line(fault.line, fault.kind),
        Ended::EditRefused { index, refusal } => edit_line(index, refusal),
        Ended::Unreadable { role } => line_of(b"zonefill: ", role_bytes(role), b" can't be read\n"),
        Ended::Unwritten { given } => number_line(
            b"zonefill: OUT was cut after ",
            given,
            b" bytes\n",
        ),
        Ended::Unsaid { given } => number_line(
            b"zonefill: report was cut after ",
            given,
            b" bytes\n",
        ),
        Ended::Memory => line_of(b"zonefill: out of memory\n", b"", b""),
    }
}
