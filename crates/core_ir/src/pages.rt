//! Pages of facts, which points share.

ghost use Rattle.std.specs.Prelude.{◌≡◌, ◌+◌, ◌<◌, ◌≤◌, IfOk, flat_map, length, slice_index_or};
ghost use Rattle.core_ir.specs.PointFacts.{AreCounted};
ghost use Rattle.core_ir.specs.declared.pages.Page.{Page as SomePage};

use crate::facts::{SharedFact, are_same, shared_again};
use std::alloc::{AllocError, Global};
use std::rc::Rc;

/// How many slots a page is for. What differs between points that follow one another is seldom more than
/// one slot, so the pages of other slots stay the same.
const SPAN: u32 = 512;

/// The facts of a range of slots, of which nothing else is known.
#[derive(Drop)]
pub struct Page {
    /// How many facts stand in the pages before it.
    pub(crate) before: usize,
    /// The facts.
    pub(crate) facts: Rc<Vec<SharedFact>>,
}

/// The page that was last made of each range of slots. Points at which the same is known of a range share
/// it.
#[derive(Drop)]
pub struct Pages {
    alloc: Global,
    kept: Vec<Option<Rc<Vec<SharedFact>>>>,
}

impl Pages {
    /// No page was made yet.
    pub fn new(alloc: Global) -> Pages {
        Pages {
            alloc,
            kept: Vec::new(alloc),
        }
    }

    /// These facts, in pages.
    pub(crate) fn list(&mut self, listed: &[SharedFact]) -> Result<Vec<Page>, AllocError>
        ensures facts { IfOk result (λ pages. flat_map (λ page. page.facts.value.items) pages.items ≡ listed.now) }
        ensures counted { IfOk result (λ pages. AreCounted (λ page. page.before) (λ page. page.facts.value.items) pages.items) }
    {
        let mut pages = Vec::new(self.alloc);
        let mut start = 0;
        while start < listed.len() {
            let end = end_of_page(listed, start);
            let facts = self.page(range_of(&listed[start]), &listed[start..end])?;
            pages.push(Page {
                before: start,
                facts,
            })?;
            start = end;
        }
        Ok(pages)
    }

    // A page with these facts: the one that was last made of the range, if that has the same.
    fn page(
        &mut self,
        range: usize,
        listed: &[SharedFact],
    ) -> Result<Rc<Vec<SharedFact>>, AllocError>
        ensures { IfOk result (λ page. page.value.items ≡ listed.now) }
    {
        if let Some(Some(last)) = self.kept.get(range) {
            if are_same(last, listed) {
                return Ok(last.clone()?);
            }
        }
        let page = Rc::new(self.alloc, shared_again(self.alloc, listed)?)?;
        self.keep(range, page.clone()?)?;
        Ok(page)
    }

    // Keeps a page as the one that was last made of a range.
    fn keep(&mut self, range: usize, page: Rc<Vec<SharedFact>>) -> Result<(), AllocError> {
        for _ in self.kept.len()..range.saturating_add(1) {
            self.kept.push(None)?;
        }
        if range < self.kept.len() {
            self.kept[range] = Some(page);
        }
        Ok(())
    }
}

// The range that the slot of a fact is in.
fn range_of(fact: &SharedFact) -> usize {
    (fact.fact().slot.0 / SPAN) as usize
}

// Where the page ends that begins with a fact.
fn end_of_page(listed: &[SharedFact], start: usize) -> usize
    requires { start < length listed.now }
    ensures begins { start < result }
    ensures within { result ≤ length listed.now }
{
    let range = range_of(&listed[start]);
    for place in start + 1..listed.len() {
        if range_of(&listed[place]) != range {
            return place;
        }
    }
    listed.len()
}

/// The page in which the fact stands that has so many before it.
pub(crate) fn page_of(pages: &[Page], place: usize) -> usize
    requires counted { AreCounted (λ page. page.before) (λ page. page.facts.value.items) pages.now }
    requires within { place < length (flat_map (λ page. page.facts.value.items) pages.now) }
    ensures within { result < length pages.now }
    ensures begins { (none : SomePage) → (slice_index_or pages.now result none).before ≤ place }
    ensures ends { (none : SomePage) → place < (slice_index_or pages.now result none).before + length (slice_index_or pages.now result none).facts.value.items }
{
    let mut low = 0;
    let mut high = pages.len();
    while high - low > 1 {
        let middle = low + (high - low) / 2;
        if pages[middle].before <= place {
            low = middle;
        } else {
            high = middle;
        }
    }
    low
}
