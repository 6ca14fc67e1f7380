//! The plain layout: the header, the sections' bytes, the section table.

ghost use Rattle.std.specs.Prelude.{◌≡◌, ◌+◌, ◌^◌, ◌<◌, ◌≤◌, ◌++◌, length, vec_len, codes, OnOk, IfOk};
ghost use Rattle.std.specs.List.{flat_map};
ghost use Rattle.sample_files.specs.Layout as layout;
ghost use Rattle.sample_files.specs.Layout.{IsSmall};

use crate::codes::{EV_CURRENT, SHN_XINDEX, SHT_STRTAB};
use crate::fields::{Field, push_fields, push_zeros};
use crate::parts::{Section, padding};
use crate::shape::{Counts, Order, Shape};
use std::alloc::{AllocError, Global};

fn order_byte(order: Order) -> u8
    ensures { result ≡ layout.order_byte order }
{
    match order {
        Order::Little => 1,
        Order::Big => 2,
    }
}

fn stated_count(counts: Counts, count: u16) -> u16
    ensures { result ≡ layout.stated_count counts count }
{
    match counts {
        Counts::Plain => count,
        Counts::Extended => 0,
    }
}

fn stated_names(counts: Counts, count: u16) -> u16
    requires { 0 < count }
    ensures { result ≡ layout.stated_names counts count }
{
    match counts {
        Counts::Plain => count - 1,
        Counts::Extended => SHN_XINDEX,
    }
}

/// Pushes the header of a file whose section table begins at `table` and has `count` headers.
fn push_header(out: &mut Vec<u8>, shape: &Shape, table: u32, count: u16) -> Result<(), AllocError>
    requires { 0 < count }
    ensures { OnOk result (out.new.items ≡ out.old.items ++ layout.header shape.now table count) }
{
    out.extend_from_slice(b"\x7fELF")?;
    out.push(shape.class.numbers().byte)?;
    out.push(order_byte(shape.order))?;
    out.push(EV_CURRENT)?;
    push_zeros(out, 9)?;
    push_fields(out, shape, &header_fields(shape, table, count))
}

/// The header's fields behind its first sixteen bytes.
fn header_fields(shape: &Shape, table: u32, count: u16) -> [Field; 13]
    requires { 0 < count }
    ensures { result ≡ layout.header_fields shape.now table count }
{
    let numbers = shape.class.numbers();
    [
        Field::Half(shape.e_type),
        Field::Half(shape.e_machine),
        Field::Word(EV_CURRENT as u32),
        Field::Place(0),
        Field::Place(0),
        Field::Place(table),
        Field::Word(0),
        Field::Half(numbers.header),
        Field::Half(0),
        Field::Half(0),
        Field::Half(numbers.entry),
        Field::Half(stated_count(shape.counts, count)),
        Field::Half(stated_names(shape.counts, count)),
    ]
}

fn first_size(counts: Counts, count: u16) -> u32
    ensures { result ≡ layout.first_size counts count }
{
    match counts {
        Counts::Plain => 0,
        Counts::Extended => count as u32,
    }
}

fn first_link(counts: Counts, count: u16) -> u32
    requires { 0 < count }
    ensures { result ≡ layout.first_link counts count }
{
    match counts {
        Counts::Plain => 0,
        Counts::Extended => count as u32 - 1,
    }
}

/// The fields of section 0.
fn first_fields(counts: Counts, count: u16) -> [Field; 10]
    requires { 0 < count }
    ensures { result ≡ layout.first_fields counts count }
{
    [
        Field::Word(0),
        Field::Word(0),
        Field::Place(0),
        Field::Place(0),
        Field::Place(0),
        Field::Place(first_size(counts, count)),
        Field::Word(first_link(counts, count)),
        Field::Word(0),
        Field::Place(0),
        Field::Place(0),
    ]
}

/// The names' section: a 0, then each section's name with a 0, its own last.
#[tactic(auto, using(crate::proofs::LayoutLemmas::names_steps))]
fn names_contents(alloc: Global, sections: &[Section<'_>]) -> Result<Vec<u8>, AllocError>
    ensures value { IfOk result (λ v. v.items ≡ layout.names_contents sections.now) }
    ensures len { IfOk result (λ v.
        vec_len v ≡ 11 + length (flat_map layout.name_bytes sections.now)) }
    ensures short { IfOk result (λ v.
        vec_len v ≤ 11 + layout.parts_room sections.now + length sections.now) }
{
    let mut names = Vec::new(alloc);
    names.push(0)?;
    for section in sections {
        section.push_name(&mut names)?;
    }
    names.extend_from_slice(b".shstrtab\0")?;
    Ok(names)
}

/// Where sections end that come behind a place.
fn parts_end(start: usize, sections: &[Section<'_>]) -> usize
    requires { start + layout.parts_room sections.now < 2 ^ 32 }
    ensures value { result ≡ layout.parts_end start sections.now }
    ensures bound { result ≤ start + layout.parts_room sections.now }
{
    let mut place = start;
    for section in sections {
        place = section.end(place);
    }
    place
}

/// Pushes the sections' bytes behind a place.
fn push_bodies(out: &mut Vec<u8>, start: usize, sections: &[Section<'_>]) -> Result<(), AllocError>
    requires { start + layout.parts_room sections.now < 2 ^ 32 }
    ensures { OnOk result (out.new.items ≡ out.old.items ++ layout.bodies start sections.now) }
{
    let mut place = start;
    for section in sections {
        section.push_body(out, place)?;
        place = section.end(place);
    }
    Ok(())
}

/// Pushes the headers of sections that come behind a place; their names begin at `first_name`.
fn push_entries(
    out: &mut Vec<u8>,
    shape: &Shape,
    start: usize,
    first_name: usize,
    sections: &[Section<'_>],
) -> Result<(), AllocError>
    requires places { start + layout.parts_room sections.now < 2 ^ 32 }
    requires names { first_name + layout.parts_room sections.now < 2 ^ 32 }
    ensures { OnOk result (out.new.items
        ≡ out.old.items ++ layout.entries shape.now start first_name sections.now) }
{
    let mut place = start;
    let mut name = first_name;
    for section in sections {
        let entry = section.entry(name as u32, section.start(place) as u32);
        push_fields(out, shape, &entry)?;
        place = section.end(place);
        name += section.name_size();
    }
    Ok(())
}

/// A file of the plain layout: the header, each section at the first place that its alignment
/// allows, the section of the names, the section table. All that isn't stated is 0.
pub fn plain_layout(
    alloc: Global,
    shape: &Shape,
    sections: &[Section<'_>],
) -> Result<Vec<u8>, AllocError>
    requires { IsSmall sections.now }
    ensures { IfOk result (λ v. v.items ≡ layout.plain_layout shape.now sections.now) }
{
    let names = names_contents(alloc, sections)?;
    let last = [Section::new(".shstrtab", SHT_STRTAB, 0, 1, &names)];
    let numbers = shape.class.numbers();
    let start = numbers.header as usize;
    let middle = parts_end(start, sections);
    let end = parts_end(middle, &last);
    let gap = padding(numbers.table_alignment, end);
    let count = sections.len() as u16 + 2;
    let mut out = Vec::new(alloc);
    push_header(&mut out, shape, (end + gap) as u32, count)?;
    push_bodies(&mut out, start, sections)?;
    push_bodies(&mut out, middle, &last)?;
    push_zeros(&mut out, gap)?;
    push_fields(&mut out, shape, &first_fields(shape.counts, count))?;
    push_entries(&mut out, shape, start, 1, sections)?;
    // Its own name, with the 0, is the last ten bytes of the names' section.
    push_entries(&mut out, shape, middle, names.len() - 10, &last)?;
    Ok(out)
}
