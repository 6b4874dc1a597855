//! The locals in scope, in pages that models share.

ghost use Rattle.std.specs.Prelude.{◌≡◌, ◌<◌, ◌≤◌, ◌-◌, ◌++◌, ◌∷◌, [], IfOk, IfErr, OnOk, OnErr, IsTrue, ◌↔◌, length, set, take, drop, slice_index_or};
ghost use Rattle.std.specs.List.{flat_map, insert, remove};
ghost use Rattle.flow_model.specs.Flow.{IsInOrder};
ghost use Rattle.flow_model.specs.Meeting.{JoinTo};
ghost use Rattle.flow_model.specs.Place.{StandsAt, WouldStandAt};

use crate::join::{Path, all_join_to};
use crate::local::Local;
use crate::locals::{Facts, LocalId};
use crate::page::Page;
use std::alloc::{AllocError, Global};
use std::marker::Model;
use std::rc::Rc;

/// How many locals a page has.
const PAGE: usize = 32;

/// The most pages that locals are kept in.
const MOST_PAGES: usize = 1 << 27;

/// The locals in scope: full pages, and those behind them. Models share the pages, and the list of
/// pages too. Contracts see it as the list of what is known of each.
#[derive(Drop)]
pub(crate) struct Locals {
    pages: Rc<Vec<Page>>,
    last: Page,
}

impl Model for Locals {
    ghost use Rattle.std.specs.Prelude.{◌≡◌, ◌≤◌, ◌^◌, ◌++◌, All, List, length};
    ghost use Rattle.std.specs.List.{flat_map};
    ghost use Rattle.std.specs.Coded.{coded_list};
    ghost use Rattle.flow_model.specs.declared.locals.Facts.{Facts};
    ghost use Rattle.flow_model.specs.Flow.{facts_code};

    ghost Value = { List Facts };

    ghost coded = { coded_list facts_code };

    ghost view = { λ l. flat_map (λ page. page) l.pages.value.items ++ l.last };

    ghost invariant = { λ l. All (λ page. length page ≡ 32) l.pages.value.items × (length l.pages.value.items ≤ 2 ^ 27) };
}

impl Locals {
    /// No local is in scope.
    pub(crate) fn new(alloc: Global) -> Result<Locals, AllocError>
        ensures { IfOk result (λ locals. locals ≡ []) }
    {
        Ok(Locals {
            pages: Rc::new(alloc, Vec::new(alloc))?,
            last: Page::new(alloc, Vec::new(alloc))?,
        })
    }

    /// The same locals once more. It copies two pointers.
    pub(crate) fn share(&self) -> Result<Locals, AllocError>
        ensures { IfOk result (λ locals. locals ≡ self.now) }
    {
        Ok(Locals {
            pages: self.pages.clone()?,
            last: self.last.share()?,
        })
    }

    /// How many they are.
    pub(crate) fn len(&self) -> usize
        ensures { result ≡ length self.now }
    {
        self.pages.len() * PAGE + self.last.locals().len()
    }

    /// The local at a place.
    pub(crate) fn at(&self, place: usize) -> &Local
        requires { place < length self.now }
        ensures { result.now ≡ slice_index_or self.now place result.now }
    {
        match self.pages.get(place / PAGE) {
            Some(page) => &page.locals()[place % PAGE],
            None => &self.last.locals()[place - self.pages.len() * PAGE],
        }
    }

    /// Where a local stands among locals in the order of their numbers, or else where it would.
    pub(crate) fn search(&self, var: LocalId) -> Result<usize, usize>
        requires { IsInOrder self.now }
        ensures found { IfOk result (StandsAt self.now var) }
        ensures absent { IfErr result (WouldStandAt self.now var) }
    {
        let mut low = 0;
        let mut high = self.len();
        while low < high {
            let middle = low + (high - low) / 2;
            let number = self.at(middle).facts().var.0;
            if number == var.0 {
                return Ok(middle);
            }
            if number < var.0 {
                low = middle + 1;
            } else {
                high = middle;
            }
        }
        Err(low)
    }

    /// Writes what is known of the local at a place. Where that is known already, nothing is written,
    /// and the pages stay shared. After an `Err` they are as before.
    pub(crate) fn put(
        &mut self,
        alloc: Global,
        place: usize,
        facts: Facts,
    ) -> Result<(), AllocError>
        requires { place < length self.old }
        ensures ok { OnOk result (self.new ≡ set self.old place facts) }
        ensures err { OnErr result (self.new ≡ self.old) }
    {
        if facts.is_same(self.at(place).facts()) {
            return Ok(());
        }
        let local = Local::new(alloc, facts)?;
        self.write(alloc, place, local)
    }

    /// Writes a local over another. After an `Err` they are as before.
    pub(crate) fn write(
        &mut self,
        alloc: Global,
        place: usize,
        local: Local,
    ) -> Result<(), AllocError>
        requires { place < length self.old }
        ensures ok { OnOk result (self.new ≡ set self.old place local) }
        ensures err { OnErr result (self.new ≡ self.old) }
    {
        let number = place / PAGE;
        if number < self.pages.len() {
            put_in_pages(alloc, &mut self.pages, number, place % PAGE, local)
        } else {
            let at = place - self.pages.len() * PAGE;
            self.last.put(alloc, at, local)
        }
    }

    /// Puts a local at the end. After an `Err` they are as before.
    pub(crate) fn push(&mut self, alloc: Global, local: Local) -> Result<(), AllocError>
        ensures ok { OnOk result (self.new ≡ self.old ++ local ∷ []) }
        ensures err { OnErr result (self.new ≡ self.old) }
    {
        self.settle(alloc)?;
        self.last.push(alloc, local)
    }

    /// Takes the last local out. After an `Err` they are as before.
    pub(crate) fn pop(&mut self, alloc: Global) -> Result<(), AllocError>
        ensures ok { OnOk result (self.new ≡ take (length self.old - 1) self.old) }
        ensures err { OnErr result (self.new ≡ self.old) }
    {
        if !self.last.locals().is_empty() {
            return self.last.pop(alloc);
        }
        match self.pages.last() {
            Some(page) => {
                let mut last = page.share()?;
                last.pop(alloc)?;
                self.pages = without_last(alloc, &self.pages)?;
                self.last = last;
                Ok(())
            }
            None => Ok(()),
        }
    }

    /// Puts a local before those from a place on, which moves these. After an `Err` they are as
    /// before.
    pub(crate) fn insert(
        &mut self,
        alloc: Global,
        place: usize,
        local: Local,
    ) -> Result<(), AllocError>
        requires { place ≤ length self.old }
        ensures ok { OnOk result (self.new ≡ insert self.old place local) }
        ensures err { OnErr result (self.new ≡ self.old) }
    {
        if place == self.len() {
            return self.push(alloc, local);
        }
        let mut more = self.front(alloc, place)?;
        more.push(alloc, local)?;
        more.push_from(alloc, self, place)?;
        *self = more;
        Ok(())
    }

    /// Takes out the local at a place, which moves those behind it. After an `Err` they are as before.
    pub(crate) fn remove(&mut self, alloc: Global, place: usize) -> Result<(), AllocError>
        requires { place < length self.old }
        ensures ok { OnOk result (self.new ≡ remove self.old place) }
        ensures err { OnErr result (self.new ≡ self.old) }
    {
        if place == self.len() - 1 {
            return self.pop(alloc);
        }
        let mut fewer = self.front(alloc, place)?;
        fewer.push_from(alloc, self, place + 1)?;
        *self = fewer;
        Ok(())
    }

    /// The first of them, or all where they are no more. Pages that are whole stay shared.
    pub(crate) fn front(&self, alloc: Global, count: usize) -> Result<Locals, AllocError>
        ensures { IfOk result (λ first. first ≡ take count self.now) }
    {
        let mut first = self.share()?;
        for _left in (count..self.len()).rev() {
            first.pop(alloc)?;
        }
        Ok(first)
    }

    /// Whether both are the same. It compares what is known of each local.
    pub(crate) fn is_same(&self, other: &Locals) -> bool
        ensures { IsTrue result ↔ (self.now ≡ other.now) }
    {
        if self.len() != other.len() {
            return false;
        }
        for i in 0..self.len() {
            if !self.at(i).is_same(other.at(i)) {
                return false;
            }
        }
        true
    }

    /// Whether it is seen without a join that where two paths meet is known of the locals what is
    /// known of them on one of the paths. It goes page by page, and takes no memory.
    pub(crate) fn join_to(&self, path: Path, other: &Locals) -> bool
        ensures { IsTrue result → JoinTo path self.now other.now }
    {
        pages_join_to(path, &self.pages, &other.pages)
            && all_join_to(path, self.last.locals(), other.last.locals())
    }

    // Puts others, from a place on, at the end.
    fn push_from(&mut self, alloc: Global, others: &Locals, from: usize) -> Result<(), AllocError>
        ensures { OnOk result (self.new ≡ self.old ++ drop from others.now) }
    {
        for place in from..others.len() {
            self.push(alloc, others.at(place).share()?)?;
        }
        Ok(())
    }

    // Makes a page of the locals behind the pages, where they fill one.
    fn settle(&mut self, alloc: Global) -> Result<(), AllocError>
        ensures { self.new ≡ self.old }
    {
        let count = self.pages.len();
        if self.last.locals().len() == PAGE && count < MOST_PAGES {
            let mut pages = shared_pages(alloc, &self.pages, count)?;
            pages.push(self.last.share()?)?;
            let last = Page::new(alloc, Vec::new(alloc))?;
            self.pages = Rc::new(alloc, pages)?;
            self.last = last;
        }
        Ok(())
    }
}

// Whether it is seen without a join that the locals in pages meet in what is known of them on one of
// the paths.
fn pages_join_to(path: Path, pages: &[Page], others: &[Page]) -> bool
    ensures { IsTrue result → JoinTo path (flat_map (λ page. page) pages.now) (flat_map (λ page. page) others.now) }
{
    if pages.len() != others.len() {
        return false;
    }
    for i in 0..pages.len() {
        if !all_join_to(path, pages[i].locals(), others[i].locals()) {
            return false;
        }
    }
    true
}

// Writes a local over another of a page. After an `Err` the pages are as before.
fn put_in_pages(
    alloc: Global,
    pages: &mut Rc<Vec<Page>>,
    number: usize,
    at: usize,
    local: Local,
) -> Result<(), AllocError>
    requires number { number < length pages.old.value.items }
    requires at { at < length (slice_index_or pages.old.value.items number []) }
    ensures ok { OnOk result (pages.new.value.items ≡ set pages.old.value.items number (set (slice_index_or pages.old.value.items number []) at local)) }
    ensures err { OnErr result (pages.new.value.items ≡ pages.old.value.items) }
{
    match Rc::get_mut(pages) {
        Some(pages) => pages[number].put(alloc, at, local),
        None => {
            let mut changed = shared_pages(alloc, pages, pages.len())?;
            changed[number].put(alloc, at, local)?;
            *pages = Rc::new(alloc, changed)?;
            Ok(())
        }
    }
}

// The first pages once more, with room for another.
fn shared_pages(alloc: Global, pages: &[Page], count: usize) -> Result<Vec<Page>, AllocError>
    requires { count ≤ length pages.now }
    ensures { IfOk result (λ shared. shared.items ≡ take count pages.now) }
{
    let mut shared = Vec::with_capacity(alloc, count.saturating_add(1))?;
    for page in &pages[..count] {
        shared.push(page.share()?)?;
    }
    Ok(shared)
}

// The pages but the last.
fn without_last(alloc: Global, pages: &[Page]) -> Result<Rc<Vec<Page>>, AllocError>
    requires { 0 < length pages.now }
    ensures { IfOk result (λ before. before.value.items ≡ take (length pages.now - 1) pages.now) }
{
    let before = shared_pages(alloc, pages, pages.len() - 1)?;
    Ok(Rc::new(alloc, before)?)
}
