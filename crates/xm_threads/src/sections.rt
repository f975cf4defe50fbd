//! The lines of a statement that tell of each security, made on several threads.
ghost use Rattle.std.specs.Prelude.{◌≡◌, ◌++◌, ◌<◌, ◌^◌, All, IfOk, OnOk, false, length, map};
ghost use Rattle.std.specs.List.{flat_map};
ghost use Rattle.xm_threads.specs.Sections.{SectionView, SectionsTold, blank_sections};
ghost use Rattle.xm_texts.specs.Statement.{securities_text, security_text};
ghost use Rattle.xm_rules.specs.Step.{replay};

use std::alloc::Global;
use std::marker::Model;
use std::thread::Threads;
use std::{slice, thread};
use xm_desk::Desk;
use xm_files::SegmentNames;
use xm_memory::OutOfMemory;
use xm_texts::{push_security, room_for_trades};

/// The desk of a security, the lines of the statement that tell of it, and the want of memory that they met.
#[derive(Drop)]
pub(crate) struct Section {
    desk: Desk<Global>,
    index: u32,
    text: Vec<u8>,
    wanting: Option<OutOfMemory>,
}

impl Model for Section {
    ghost use Rattle.std.specs.Prelude.{is_some};
    ghost use Rattle.xm_threads.specs.Sections.{SectionView};

    ghost Value = { SectionView };

    ghost view = { λ s. record { journal = s.desk; index = s.index; text = s.text.items; lacks_memory = is_some s.wanting } };
}

impl Section {
    ghost use Rattle.std.specs.Prelude.{◌≡◌, IfOk, OnOk, false};
    ghost use Rattle.xm_threads.specs.Sections.{blank_section, told_section};

    /// The desk of the security with this index, of which nothing is told yet.
    fn of(alloc: Global, desk: Desk<Global>, index: u32) -> Section
        ensures { result ≡ blank_section index desk }
    {
        Section {
            desk,
            index,
            text: Vec::new(alloc),
            wanting: None,
        }
    }

    /// Adds its lines.
    fn tell(&mut self, names: &SegmentNames)
        ensures { self.new.lacks_memory ≡ false → self.new ≡ told_section names.now self.old }
    {
        if self.wanting.is_none() {
            self.wanting = push_lines(&mut self.text, &self.desk, names, self.index).err();
        }
    }

    /// The desk and its lines, or the want of memory that they met.
    fn into_parts(self) -> Result<(Desk<Global>, Vec<u8>), OutOfMemory>
        ensures parts { IfOk result (λ parts. (parts.0 ≡ self.journal) × (parts.1.items ≡ self.text)) }
        ensures had_memory { OnOk result (self.lacks_memory ≡ false) }
    {
        let Section {
            desk,
            text,
            wanting,
            ..
        } = self;
        match wanting {
            None => Ok((desk, text)),
            Some(wanting) => Err(wanting),
        }
    }
}

/// Adds the lines of a security to a text, in which there is room for its trades first.
fn push_lines(
    text: &mut Vec<u8>,
    desk: &Desk<Global>,
    names: &SegmentNames,
    index: u32,
) -> Result<(), OutOfMemory>
    ensures { OnOk result (text.new.items ≡ text.old.items ++ security_text names.now index (replay desk.now)) }
{
    text.reserve(room_for_trades(slice::from_ref(desk)))?;
    push_security(text, desk, names, index)
}

/// The lines of each security of a statement, made on so many threads, in a text of its own, and the desks, which are given back.
pub fn security_texts<T: Threads + Sync>(
    rt: &T,
    threads: u32,
    desks: Vec<Desk<Global>>,
    names: &SegmentNames,
) -> Result<(Vec<Desk<Global>>, Vec<Vec<u8>>), OutOfMemory>
    requires names { length names.now.securities ≡ length desks.items }
    ensures desks { IfOk result (λ made. made.0.items ≡ desks.items) }
    ensures texts { IfOk result (λ made. flat_map (λ text. text.items) made.1.items ≡ securities_text names.now (map replay desks.items)) }
    ensures few { OnOk result (length desks.items < 2 ^ 32) }
{
    let mut sections = sections_of(desks, names)?;
    tell_sections(rt, threads, names, sections.as_mut_slice());
    taken_apart(sections)
}

/// The securities of these desks, of which nothing is told yet.
fn sections_of(desks: Vec<Desk<Global>>, names: &SegmentNames) -> Result<Vec<Section>, OutOfMemory>
    requires { length names.now.securities ≡ length desks.items }
    ensures blank { IfOk result (λ sections. sections.items ≡ blank_sections 0 desks.items) }
    ensures few { OnOk result (length desks.items < 2 ^ 32) }
{
    let alloc = *desks.allocator();
    let most = names.securities();
    let mut sections = Vec::with_capacity(alloc, most as usize)?;
    let mut index = 0;
    for desk in desks {
        sections.push(Section::of(alloc, desk, index))?;
        index = most.min(index.saturating_add(1));
    }
    Ok(sections)
}

/// Has each of these securities tell its lines, so many at a time.
fn tell_sections<T: Threads + Sync>(
    rt: &T,
    threads: u32,
    names: &SegmentNames,
    sections: &mut [Section],
)
    ensures { SectionsTold names.now sections.old sections.new }
{
    let threads = (threads as usize).max(1);
    thread::for_each_mut(
        rt,
        sections,
        threads,
        &|_place, section| section.tell(names),
    );
}

/// The desks of securities and their lines, unless memory was wanting for those of one.
fn taken_apart(sections: Vec<Section>) -> Result<(Vec<Desk<Global>>, Vec<Vec<u8>>), OutOfMemory>
    ensures desks { IfOk result (λ made. made.0.items ≡ map (λ (s : SectionView). s.journal) sections.items) }
    ensures texts { IfOk result (λ made. flat_map (λ text. text.items) made.1.items ≡ flat_map (λ (s : SectionView). s.text) sections.items) }
    ensures had_memory { OnOk result (All (λ (s : SectionView). s.lacks_memory ≡ false) sections.items) }
{
    let alloc = *sections.allocator();
    let mut desks = Vec::with_capacity(alloc, sections.len())?;
    let mut texts = Vec::with_capacity(alloc, sections.len())?;
    for section in sections {
        let (desk, text) = section.into_parts()?;
        desks.push(desk)?;
        texts.push(text)?;
    }
    Ok((desks, texts))
}
