// The lists that edits put into a board's text.
ghost use Rattle.std.specs.Prelude.{◌≡◌, ◌≤◌, ◌++◌, ◌∷◌, [], map, codes, pos, IfOk, IfErr};
ghost use Rattle.std.specs.Fmt.{decimal};
ghost use Rattle.grid_num.specs.Length.{IsInRange};
ghost use Rattle.grid_num.specs.Written.{mm_of};
ghost use Rattle.edit_language.specs.Scripts.{IsPointInRange, IsSize};
ghost use Rattle.edit_language.specs.Splices.{list_text, point_list, length_list, whole_list, between_quotes, on_own_line, behind_space, stamp_text, track_line, via_line};

use grid_num::{Memory, MmText, Nm, Point, write_mm};
use itoa::Buffer;
use std::alloc::Global;

/// A copy of these bytes, between two others.
fn between(alloc: Global, front: &[u8], bytes: &[u8], back: &[u8]) -> Result<Vec<u8>, Memory>
    ensures { IfOk result (λ v. v.items ≡ front.now ++ (bytes.now ++ back.now)) }
{
    let mut out = Vec::new(alloc);
    out.extend_from_slice(front)?;
    out.extend_from_slice(bytes)?;
    out.extend_from_slice(back)?;
    Ok(out)
}

/// A list of this name and these values.
fn list(alloc: Global, name: &[u8], values: &[Vec<u8>]) -> Result<Vec<u8>, Memory>
    ensures { IfOk result (λ v. v.items ≡ list_text name.now (map (λ value. value.items) values.now)) }
{
    let mut out = between(alloc, b"(", name, b"")?;
    'values: for value in values {
        out.push(b' ')?;
        out.extend_from_slice(value.as_slice())?;
    }
    out.push(b')')?;
    Ok(out)
}

/// A length in nanometres as millimetres.
fn length(alloc: Global, nm: i64) -> Result<Vec<u8>, Memory>
    requires { IsInRange nm }
    ensures { IfOk result (λ v. v.items ≡ mm_of nm) }
{
    let length = Nm::new(nm).unwrap();
    let mut text = MmText::new();
    write_mm(length, &mut text);
    between(alloc, b"", text.bytes(), b"")
}

/// A list of one length that isn't negative.
pub fn size_list(alloc: Global, name: &[u8], nm: u32) -> Result<Vec<u8>, Memory>
    requires { IsSize nm }
    ensures { IfOk result (λ v. v.items ≡ length_list name.now nm) }
{
    let values = [length(alloc, nm as i64)?];
    list(alloc, name, &values)
}

/// A list of the two places of a point.
fn place_list(alloc: Global, name: &[u8], p: Point) -> Result<Vec<u8>, Memory>
    requires { IsPointInRange p }
    ensures { IfOk result (λ v. v.items ≡ point_list name.now p) }
{
    let values = [length(alloc, p.x)?, length(alloc, p.y)?];
    list(alloc, name, &values)
}

/// A list of one whole number.
pub fn number_list(alloc: Global, name: &[u8], number: u32) -> Result<Vec<u8>, Memory>
    ensures { IfOk result (λ v. v.items ≡ whole_list name.now number) }
{
    let mut buffer = Buffer::new();
    let values = [between(alloc, b"", buffer.format(number).as_bytes(), b"")?];
    list(alloc, name, &values)
}

/// A list of one word.
fn word_list(alloc: Global, name: &[u8], word: &[u8]) -> Result<Vec<u8>, Memory>
    ensures { IfOk result (λ v. v.items ≡ list_text name.now (word.now ∷ [])) }
{
    let values = [between(alloc, b"", word, b"")?];
    list(alloc, name, &values)
}

/// The `layer` of a track.
fn layer_list(alloc: Global, layer: &[u8]) -> Result<Vec<u8>, Memory>
    ensures { IfOk result (λ v. v.items ≡ list_text (codes "layer") (between_quotes layer.now ∷ [])) }
{
    let values = [between(alloc, b"\"", layer, b"\"")?];
    list(alloc, b"layer", &values)
}

/// The `layers` of a via.
fn layers_list(alloc: Global, top: &[u8], bottom: &[u8]) -> Result<Vec<u8>, Memory>
    ensures { IfOk result (λ v. v.items ≡ list_text (codes "layers") (between_quotes top.now ∷ between_quotes bottom.now ∷ [])) }
{
    let values = [
        between(alloc, b"\"", top, b"\"")?,
        between(alloc, b"\"", bottom, b"\"")?,
    ];
    list(alloc, b"layers", &values)
}

/// The list of a new thing's stamp in a text of this version.
fn stamp_list(alloc: Global, version: u32, stamp: &[u8]) -> Result<Vec<u8>, Memory>
    ensures { IfOk result (λ v. v.items ≡ stamp_text version stamp.now) }
{
    if 20221018 < version {
        let values = [between(alloc, b"\"", stamp, b"\"")?];
        list(alloc, b"uuid", &values)
    } else {
        word_list(alloc, b"tstamp", stamp)
    }
}

/// The line of a new track in a text of this version.
#[tactic(auto, unfolding(crate::specs::Splices::track_line))]
pub fn track_text(
    alloc: Global,
    version: u32,
    from: Point,
    to: Point,
    width: u32,
    layer: &[u8],
    net: u32,
    stamp: &[u8],
) -> Result<Vec<u8>, Memory>
    requires from { IsPointInRange from }
    requires to { IsPointInRange to }
    requires width { IsSize width }
    ensures { IfOk result (λ v. v.items ≡ track_line version from to width layer.now net stamp.now) }
{
    let values = [
        place_list(alloc, b"start", from)?,
        place_list(alloc, b"end", to)?,
        size_list(alloc, b"width", width)?,
        layer_list(alloc, layer)?,
        number_list(alloc, b"net", net)?,
        stamp_list(alloc, version, stamp)?,
    ];
    let segment = list(alloc, b"segment", &values)?;
    between(alloc, b"  ", segment.as_slice(), b"\n")
}

/// The line of a new via in a text of this version.
#[tactic(auto, unfolding(crate::specs::Splices::via_line))]
pub fn via_text(
    alloc: Global,
    version: u32,
    at: Point,
    size: u32,
    drill: u32,
    top: &[u8],
    bottom: &[u8],
    net: u32,
    stamp: &[u8],
) -> Result<Vec<u8>, Memory>
    requires at { IsPointInRange at }
    requires size { IsSize size }
    requires drill { IsSize drill }
    ensures { IfOk result (λ v. v.items ≡ via_line version at size drill top.now bottom.now net stamp.now) }
{
    let values = [
        place_list(alloc, b"at", at)?,
        size_list(alloc, b"size", size)?,
        size_list(alloc, b"drill", drill)?,
        layers_list(alloc, top, bottom)?,
        number_list(alloc, b"net", net)?,
        stamp_list(alloc, version, stamp)?,
    ];
    let via = list(alloc, b"via", &values)?;
    between(alloc, b"  ", via.as_slice(), b"\n")
}

/// A list behind a space.
pub fn spaced(alloc: Global, list: &[u8]) -> Result<Vec<u8>, Memory>
    ensures { IfOk result (λ v. v.items ≡ behind_space list.now) }
{
    between(alloc, b" ", list, b"")
}

/// A `connect_pads` with a clearance.
pub fn connect_list(alloc: Global, nm: u32) -> Result<Vec<u8>, Memory>
    requires { IsSize nm }
    ensures { IfOk result (λ v. v.items ≡ list_text (codes "connect_pads") (length_list (codes "clearance") nm ∷ [])) }
{
    let values = [size_list(alloc, b"clearance", nm)?];
    list(alloc, b"connect_pads", &values)
}
