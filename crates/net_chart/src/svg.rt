//! Elements of an SVG page. Numbers are pixels.
ghost use Rattle.std.specs.Prelude.{◌≡◌, ◌++◌, take, OnOk};
ghost use Rattle.net_chart.specs.Svg as spec;

use net_base::Octets;
use std::alloc::AllocError;
use words::put_decimal;

/// Adds an attribute with a number.
#[tactic(auto, unfolding(crate::specs::Svg::attribute))]
pub fn put_attribute(out: &mut Octets, name: &[u8], n: u64) -> Result<(), AllocError>
    ensures { OnOk result (out.new ≡ out.old ++ spec.attribute name.now n) }
{
    out.append(b" ")?;
    out.append(name)?;
    out.append(b"='")?;
    put_decimal(out, n)?;
    out.append(b"'")
}

fn put_class(out: &mut Octets, class: &[u8]) -> Result<(), AllocError>
    ensures { OnOk result (out.new ≡ out.old ++ spec.class_text class.now) }
{
    out.append(b" class='")?;
    out.append(class)?;
    out.append(b"'")
}

/// Adds a line between two points.
#[tactic(auto, unfolding(crate::specs::Svg::svg_line_text))]
pub fn put_line(
    out: &mut Octets,
    class: &[u8],
    x: u64,
    y: u64,
    to_x: u64,
    to_y: u64,
) -> Result<(), AllocError>
    ensures { OnOk result (out.new ≡ out.old ++ spec.svg_line_text class.now x y to_x to_y) }
{
    out.append(b"<line")?;
    put_class(out, class)?;
    put_attribute(out, b"x1", x)?;
    put_attribute(out, b"y1", y)?;
    put_attribute(out, b"x2", to_x)?;
    put_attribute(out, b"y2", to_y)?;
    out.append(b"/>")?;
    out.append(b"\n")
}

/// Begins strokes from a point on.
#[tactic(auto, unfolding(crate::specs::Svg::path_start))]
pub fn start_path(out: &mut Octets, class: &[u8], x: u64, y: u64) -> Result<(), AllocError>
    ensures { OnOk result (out.new ≡ out.old ++ spec.path_start class.now x y) }
{
    out.append(b"<path")?;
    put_class(out, class)?;
    out.append(b" d='M ")?;
    put_decimal(out, x)?;
    out.append(b" ")?;
    put_decimal(out, y)
}

/// Ends strokes.
#[tactic(auto, unfolding(crate::specs::Svg::path_end))]
pub fn end_path(out: &mut Octets) -> Result<(), AllocError>
    ensures { OnOk result (out.new ≡ out.old ++ spec.path_end) }
{
    out.append(b"'/>")?;
    out.append(b"\n")
}

/// Begins a text near a point, which other attributes shift.
#[tactic(auto, unfolding(crate::specs::Svg::text_start))]
pub fn start_text(
    out: &mut Octets,
    class: &[u8],
    shift: &[u8],
    x: u64,
    y: u64,
) -> Result<(), AllocError>
    ensures { OnOk result (out.new ≡ out.old ++ spec.text_start class.now shift.now x y) }
{
    out.append(b"<text")?;
    put_class(out, class)?;
    out.append(shift)?;
    put_attribute(out, b"x", x)?;
    put_attribute(out, b"y", y)?;
    out.append(b">")
}

/// Ends a text.
#[tactic(auto, unfolding(crate::specs::Svg::svg_text_end))]
pub fn end_text(out: &mut Octets) -> Result<(), AllocError>
    ensures { OnOk result (out.new ≡ out.old ++ spec.svg_text_end) }
{
    out.append(b"</text>")?;
    out.append(b"\n")
}

fn put_escaped_byte(out: &mut Octets, byte: u8) -> Result<(), AllocError>
    ensures { OnOk result (out.new ≡ out.old ++ spec.escaped_byte byte) }
{
    match byte {
        b'&' => out.append(b"&amp;"),
        b'<' => out.append(b"&lt;"),
        b'>' => out.append(b"&gt;"),
        32..=126 => out.push(byte),
        _ => out.append(b"."),
    }
}

/// Adds a text between tags. What isn't printed there is a dot.
pub fn put_escaped(out: &mut Octets, text: &[u8]) -> Result<(), AllocError>
    ensures { OnOk result (out.new ≡ out.old ++ spec.svg_escaped text.now) }
{
    for byte in text {
        put_escaped_byte(out, *byte)?;
    }
    Ok(())
}

fn beginning(text: &[u8]) -> &[u8]
    ensures { result.now ≡ take 16 text.now }
{
    if text.len() <= 16 { text } else { &text[..16] }
}

/// Adds the beginning of a text in quotes.
#[tactic(auto, unfolding(crate::specs::Svg::svg_quoted))]
pub fn put_quoted(out: &mut Octets, text: &[u8]) -> Result<(), AllocError>
    ensures { OnOk result (out.new ≡ out.old ++ spec.svg_quoted text.now) }
{
    out.append(b" '")?;
    put_escaped(out, beginning(text))?;
    out.append(b"'")
}
