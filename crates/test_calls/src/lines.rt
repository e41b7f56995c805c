//! Lines, put by those who see a page and written by those who see lines.
ghost use Rattle.std.specs.Prelude.{◌≡◌, ◌+◌, ◌*◌, [], ◌∷◌, ◌++◌, map, option_map, IfSome, IsTrue, OnErr, OnOk, length};
ghost use Rattle.std.specs.Option.{option_to_list};
ghost use Rattle.usb_text.specs.Shown.{Bytes, End, Indent, Name, Number, showing_all};
ghost use Rattle.usb_text.specs.Written.{WritesLess, WritesLines, is_words, written};

use std::alloc::AllocError;
use std::io::Write;
use std::test::Fail;
use usb_text::{Lines, OutFault, Page};

/// The name of a class.
fn class_name(class: u8) -> Option<&'static str>
    ensures { IfSome result (λ name. IsTrue (is_words name.now)) }
{
    match class {
        3 => Some("HID"),
        8 => Some("mass storage"),
        _ => None,
    }
}

/// Puts a code, with its name if it has one.
fn put_named<P: Page>(page: &mut P, code: u8, name: Option<&'static str>) -> Result<(), AllocError>
    requires { IfSome name (λ n. IsTrue (is_words n.now)) }
    ensures { OnOk result (P.seen page.new ≡ showing_all P.showing (Number code ∷ option_to_list (option_map (λ n. Name n.now) name.entry)) (P.seen page.old)) }
{
    match name {
        None => page.put_byte_code(code),
        Some(name) => {
            page.begin_byte_meaning(code)?;
            page.put_name(name)?;
            page.put(")")
        }
    }
}

/// Puts numbers, each after a space.
fn put_numbers<P: Page>(page: &mut P, numbers: &[u8]) -> Result<(), AllocError>
    ensures { OnOk result (P.seen page.new ≡ showing_all P.showing (map Number numbers.now) (P.seen page.old)) }
{
    for n in numbers {
        page.put(" ")?;
        page.put_decimal(u64::from(*n))?;
    }
    Ok(())
}

/// Puts one line.
#[tactic(auto, using(usb_text::proofs::ShownLines::showing_joined))]
fn put_entry<P: Page>(
    page: &mut P,
    depth: u8,
    name: Option<&'static str>,
    class: u8,
    numbers: &[u8],
) -> Result<(), AllocError>
    requires { IfSome name (λ n. IsTrue (is_words n.now)) }
    ensures { OnOk result (P.seen page.new ≡ showing_all P.showing (Indent (2 * depth) ∷ Number class ∷ option_to_list (option_map (λ n. Name n.now) name.entry) ++ map Number numbers.now ++ Number (length numbers.now) ∷ Bytes numbers.now ∷ End ∷ []) (P.seen page.old)) }
{
    page.put_indent(2 * usize::from(depth))?;
    put_named(page, class, name)?;
    put_numbers(page, numbers)?;
    page.put(if numbers.len() > 9 {
        " are many, "
    } else {
        " are "
    })?;
    page.put_count(numbers.len() as u64, "byte")?;
    page.put(": ")?;
    page.put_digits(numbers)?;
    page.end_line()
}

#[test]
fn puts_lines(rt: HostRuntime) -> Result<(), Fail> {
    let mut lines = Lines::new(rt.alloc(), false);
    put_entry(&mut lines, 1, class_name(3), 3, &[7, 5])?;
    put_entry(&mut lines, 0, class_name(9), 9, &[])?;
    assert_eq!(rt;
        lines.as_bytes(),
        b"  0x03 (HID) 7 5 are 2 bytes: 0705\n0x09 are 0 bytes: \n".as_slice()
    );
    Ok(())
}

/// Writes `count` lines.
fn write_entries<W: Write>(lines: Lines, count: u8, w: &mut W) -> Result<(), OutFault>
    ensures ok { OnOk result (WritesLines lines.utf8 ((written lines).ended + count) (W.contents w.old) (W.contents w.new)) }
    ensures err { OnErr result (WritesLess lines.utf8 ((written lines).ended + count) (W.contents w.old) (W.contents w.new)) }
{
    let mut lines = lines;
    for i in 0..count {
        put_entry(&mut lines, 0, None, i, &[])?;
        lines.pass_on(w)?;
    }
    lines.finish(w)?;
    Ok(())
}

#[test]
fn writes_lines(rt: HostRuntime) -> Result<(), Fail> {
    let mut written = Vec::new(rt.alloc());
    write_entries(Lines::new(rt.alloc(), true), 2, &mut written)?;
    assert_eq!(rt;
        written.as_slice(),
        b"0x00 are 0 bytes: \n0x01 are 0 bytes: \n".as_slice()
    );
    Ok(())
}

#[test]
fn puts_units(rt: HostRuntime) -> Result<(), Fail> {
    for utf8 in [false, true] {
        let mut lines = Lines::new(rt.alloc(), utf8);
        lines.put_units(&[0x43, 0xe9, 0x0a])?;
        lines.put_units_in(&[0x3d, 0xd8, 0x4c, 0xdf, 0x2e, 0x20])?;
        let expected = if utf8 {
            b"C\xc3\xa9\\000a\xf0\x9f\x9d\x8c\\202e".as_slice()
        } else {
            b"C\\00e9\\000a\\d83d\\df4c\\202e".as_slice()
        };
        assert_eq!(rt; lines.as_bytes(), expected);
    }
    Ok(())
}

#[test]
fn passes_on_whole_lines(rt: HostRuntime) -> Result<(), Fail> {
    let mut lines = Lines::new(rt.alloc(), false);
    let mut written = Vec::new(rt.alloc());
    lines.put_indent(32 * 1024)?;
    lines.pass_on(&mut written)?;
    assert_eq!(rt; written.len(), 0);
    lines.end_line()?;
    lines.pass_on(&mut written)?;
    assert!(rt; lines.is_empty());
    lines.put("begun")?;
    lines.finish(&mut written)?;
    assert_eq!(rt; written.len(), 32 * 1024 + 1);
    Ok(())
}
