//! The instance that grows from two numbers.
ghost use Rattle.std.specs.Prelude.{◌≡◌, ◌+◌, ◌<◌, ◌≤◌, ◌^◌, IfOk, OnOk};
ghost use Rattle.rand_pcg.specs.Lcg.{Lcg};
ghost use Rattle.fragments.specs.Fragment.{fragment};
ghost use Rattle.message_model.specs.Tables.{pieces_of};
ghost use Rattle.drill.specs.BuiltIn.{drill_tables};
ghost use Rattle.drill.specs.Growing.{Growth, first_growth, next_growth, growth_of, generator_of, tree_of, document, instance, deepest, most_beside};
ghost use Rattle.drill.specs.inner.PathPieces.{HasGrown};

use crate::name::write_name;
use crate::stem::Stem;
use inst_pool::Instance;
use rand_core::SeedableRng;
use rand_core::utils::NextWord;
use rand_pcg::Pcg32;
use std::alloc::{AllocError, Global};

/// An instance, and how many of its nodes are one in the other.
#[derive(Drop)]
pub(crate) struct Grown {
    pub(crate) instance: Instance,
    pub(crate) depth: u32,
}

/// What has grown: the open nodes, the greatest depth so far, and the generator of words.
#[derive(Drop)]
pub(crate) struct Sprout {
    pub(crate) stem: Stem,
    pub(crate) deepest: u32,
    pub(crate) generator: Pcg32,
    /// The name that was written last.
    pub(crate) name: Vec<u8>,
}

/// The instance of two numbers, of at most 1,000,000 nodes beside the first.
pub(crate) fn grow(alloc: Global, number: u64, size: u32) -> Result<Grown, AllocError>
    requires { size ≤ most_beside }
    ensures { IfOk result (λ g. (g.instance.region.pieces ≡ pieces_of fragment drill_tables (instance number size)) × (g.depth ≡ deepest number size)) }
{
    let mut sprout = Sprout::sow(alloc, number, size)?;
    sprout.grow_all(size)?;
    sprout.finish()
}

impl Sprout {
    /// Node 0 is open, and there is room for so many beside it.
    fn sow(alloc: Global, number: u64, size: u32) -> Result<Sprout, AllocError>
        ensures { IfOk result (λ s. HasGrown (first_growth (generator_of number)) s) }
    {
        let mut name = Vec::new(alloc);
        write_name(&mut name, 0)?;
        let stem = Stem::sow(alloc, name.as_slice(), size)?;
        Ok(Sprout {
            stem,
            deepest: 1,
            generator: Pcg32::seed_from_u64(number),
            name,
        })
    }

    /// The next word says how many nodes are left before the next opens.
    fn grow_one(&mut self, number: u32) -> Result<(), AllocError>
        requires grown { (g : Growth) × HasGrown g self.old }
        requires room { self.old.stem.depth + 1 < 2 ^ 32 }
        ensures { (g : Growth) → HasGrown g self.old → OnOk result (HasGrown (next_growth number g) self.new) }
    {
        let word = self.generator.next_word();
        self.stem.leave_some(word % 3)?;
        write_name(&mut self.name, number)?;
        self.stem.open(number, self.name.as_slice())?;
        self.deepest = self.deepest.max(self.stem.depth);
        Ok(())
    }

    /// So many nodes open beside node 0.
    fn grow_all(&mut self, size: u32) -> Result<(), AllocError>
        requires sown { (generator : Lcg) × HasGrown (first_growth generator) self.old }
        requires room { size + 2 < 2 ^ 32 }
        ensures { (generator : Lcg) → HasGrown (first_growth generator) self.old → OnOk result (HasGrown (growth_of size generator) self.new) }
    {
        for i in 0..size {
            if let Err(error) = self.grow_one(i + 1) {
                return Err(error);
            }
        }
        Ok(())
    }

    /// All nodes close, and the message's element.
    fn finish(self) -> Result<Grown, AllocError>
        requires { (g : Growth) × HasGrown g self }
        ensures { (g : Growth) → HasGrown g self → IfOk result (λ r. (r.instance.region.pieces ≡ pieces_of fragment drill_tables (document (tree_of g.path))) × (r.depth ≡ g.deepest)) }
    {
        let Sprout { stem, deepest, .. } = self;
        let instance = stem.finish()?;
        Ok(Grown {
            instance,
            depth: deepest,
        })
    }
}
