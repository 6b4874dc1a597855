//! A page of locals, as models share it.

ghost use Rattle.std.specs.Prelude.{◌≡◌, ◌<◌, ◌-◌, ◌++◌, ◌∷◌, [], IfOk, OnOk, OnErr, length, set, take};

use crate::local::Local;
use std::alloc::{AllocError, Global};
use std::marker::Model;
use std::rc::Rc;

/// Some locals in a row, shared by the models in which the same is known of each of them. A change
/// makes a page of its own, unless no other model has this one. Contracts see it as the list.
#[derive(Drop)]
pub(crate) struct Page {
    locals: Rc<Vec<Local>>,
}

impl Model for Page {
    ghost use Rattle.std.specs.Prelude.{List};
    ghost use Rattle.std.specs.Coded.{coded_list};
    ghost use Rattle.flow_model.specs.declared.locals.Facts.{Facts};
    ghost use Rattle.flow_model.specs.Flow.{facts_code};

    ghost Value = { List Facts };

    ghost coded = { coded_list facts_code };

    ghost view = { λ p. p.locals.value.items };
}

impl Page {
    /// A page of these locals.
    pub(crate) fn new(alloc: Global, locals: Vec<Local>) -> Result<Page, AllocError>
        ensures { IfOk result (λ page. page ≡ locals.items) }
    {
        Ok(Page {
            locals: Rc::new(alloc, locals)?,
        })
    }

    /// The same page once more. It copies a pointer.
    pub(crate) fn share(&self) -> Result<Page, AllocError>
        ensures { IfOk result (λ page. page ≡ self.now) }
    {
        Ok(Page {
            locals: self.locals.clone()?,
        })
    }

    /// The locals of the page.
    pub(crate) fn locals(&self) -> &[Local]
        ensures { result.now ≡ self.now }
    {
        self.locals.as_slice()
    }

    /// Writes a local over another. After an `Err` the page is as before.
    pub(crate) fn put(&mut self, alloc: Global, at: usize, local: Local) -> Result<(), AllocError>
        requires { at < length self.old }
        ensures ok { OnOk result (self.new ≡ set self.old at local) }
        ensures err { OnErr result (self.new ≡ self.old) }
    {
        match Rc::get_mut(&mut self.locals) {
            Some(locals) => {
                locals[at] = local;
                Ok(())
            }
            None => {
                let mut locals = shared_again(alloc, self.locals())?;
                locals[at] = local;
                *self = Page::new(alloc, locals)?;
                Ok(())
            }
        }
    }

    /// Puts a local at the end. After an `Err` the page is as before.
    pub(crate) fn push(&mut self, alloc: Global, local: Local) -> Result<(), AllocError>
        ensures ok { OnOk result (self.new ≡ self.old ++ local ∷ []) }
        ensures err { OnErr result (self.new ≡ self.old) }
    {
        match Rc::get_mut(&mut self.locals) {
            Some(locals) => {
                locals.push(local)?;
                Ok(())
            }
            None => {
                let mut locals = shared_again(alloc, self.locals())?;
                locals.push(local)?;
                *self = Page::new(alloc, locals)?;
                Ok(())
            }
        }
    }

    /// Takes the last local out. After an `Err` the page is as before.
    pub(crate) fn pop(&mut self, alloc: Global) -> Result<(), AllocError>
        ensures ok { OnOk result (self.new ≡ take (length self.old - 1) self.old) }
        ensures err { OnErr result (self.new ≡ self.old) }
    {
        match Rc::get_mut(&mut self.locals) {
            Some(locals) => {
                locals.pop();
                Ok(())
            }
            None => {
                let mut locals = shared_again(alloc, self.locals())?;
                locals.pop();
                *self = Page::new(alloc, locals)?;
                Ok(())
            }
        }
    }
}

// The same locals once more, with room for another.
fn shared_again(alloc: Global, locals: &[Local]) -> Result<Vec<Local>, AllocError>
    ensures { IfOk result (λ copied. copied.items ≡ locals.now) }
{
    let mut copied = Vec::with_capacity(alloc, locals.len().saturating_add(1))?;
    for local in locals {
        copied.push(local.share()?)?;
    }
    Ok(copied)
}
