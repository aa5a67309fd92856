//! Images that were prepared for their loads.
ghost use Rattle.std.specs.Prelude.{◌≡◌, IfOk, IfSome, MatchOption, None, Some};
ghost use Rattle.module_image.specs.Contents.{Contents};
ghost use Rattle.module_image.specs.Spelling.{Image};
ghost use Rattle.domain_model.specs.Good.{IsGoodImage};
ghost use Rattle.domain_model.specs.Prepared.{prepared};
ghost use Rattle.domain_model.specs.Runners.{IsPlaceable};
ghost use Rattle.mod_loader.specs.Banks.{AreSpelled, HasItsWords, bank_of, prepared_of};

use crate::loadable::Loadable;
use crate::preparing::prepared_contents;
use domain_model::Refusal;
use module_image::parse;
use mote_base::NoMemory;
use std::alloc::Global;
use std::marker::Model;
use unit_code::BankCode;

/// The file of an image that was read and prepared: the module that it holds, or why it holds none.
#[derive(Drop)]
pub struct Ready {
    prepared: Result<Loadable, Refusal>,
}

impl Model for Ready {
    ghost use Rattle.mod_loader.specs.Banks.{Readied};

    ghost Value = { Readied };

    ghost view = { λ r. r.prepared };
}

impl Ready {
    /// Prepares an image from the bytes of its file.
    pub fn new(alloc: Global, file: &[u8]) -> Result<Ready, NoMemory>
        ensures prepared { IfOk result (λ r. prepared_of r ≡ prepared file.now) }
        ensures good { IfOk result (λ r. IsGoodImage (prepared_of r)) }
        // The words of its bank are the image's own where a rewriter made it, and else those that the rewriter gives.
        ensures words { IfOk result (λ r. (c : Contents) → Image file.now c → HasItsWords r c) }
        ensures spelled { IfOk result AreSpelled }
    {
        match parse(file) {
            Err(error) => Ok(Ready {
                prepared: Err(Refusal::Image(error)),
            }),
            Ok(image) => {
                let prepared = prepared_contents(alloc, &image)?;
                let ready = Ready { prepared };
                ready.known();
                Ok(ready)
            }
        }
    }

    /// The code of the module's bank: its units, with words that spell them. None exactly where the file holds no
    /// module.
    pub fn bank(&self) -> Option<&BankCode>
        ensures code { MatchOption result (bank_of self.now ≡ None) (λ code. bank_of self.now ≡ Some code.now) }
        ensures placeable { IfSome result (λ code. IsPlaceable code.now) }
    {
        match &self.prepared {
            Ok(loadable) => Some(loadable.code()),
            Err(_) => None,
        }
    }

    /// Its module, if it holds one, is one that a kernel takes, and its words spell its units.
    pub fn known(&self)
        ensures good { IsGoodImage (prepared_of self.now) }
        ensures spelled { AreSpelled self.now }
    {
        if let Ok(loadable) = &self.prepared {
            loadable.known();
        }
    }

    /// The module, or why there is none.
    pub(crate) fn prepared(&self) -> &Result<Loadable, Refusal>
        ensures { result.now ≡ self.now }
    {
        &self.prepared
    }
}
