//! The laws of the definitions over lists of segments.

ghost use Rattle.std.specs.Prelude.{◌≡◌, ◌≢◌, ℕ, ◌≤◌, ◌↔◌, Bool, true, List, ◌∷◌, None, Some, IsSomeAnd};
ghost use Rattle.mote_layout.specs.Memory.{kernel};
ghost use Rattle.mote_layout.specs.Blocks.{AreBlocks, Owns, owns, block_address, segment_at, starting_at, Fits, IsFreeAddress, inserted, without, without_owner, given_to, handed_over};
ghost use Rattle.mote_layout.specs.Store.{MayStore, may_store};
ghost use Rattle.mote_layout.specs.Load.{AreConstants, IsConstant, MayLoad, may_load};
ghost use Rattle.mote_layout.specs.Fit.{IsLeastFit, fit};
ghost use Rattle.mote_layout.specs.Requests.{Holds, holds};
ghost use Rattle.mote_layout.specs.declared.segment.Segment.{Segment};

/// Laws of *Blocks* (`specs/Blocks.antt`): which changes of the list keep it, and who owns an address.
pub fn blocks_laws()
    // One more segment on free blocks, some segments fewer, or another owner for one: all keep *Blocks*.
    ensures inserted { (s : Segment) (ss : List Segment) → 1 ≤ s.count → s.owner ≤ kernel → Fits ss s.first s.count
        → AreBlocks ss → AreBlocks (inserted s ss) }
    ensures without { (block : ℕ) (ss : List Segment) → AreBlocks ss → AreBlocks (without block ss) }
    ensures without_owner { (owner : ℕ) (ss : List Segment) → AreBlocks ss → AreBlocks (without_owner owner ss) }
    ensures handed_over { (block owner : ℕ) (ss : List Segment) → owner ≤ kernel → AreBlocks ss
        → AreBlocks (handed_over block owner ss) }

    // The owner of an address is that of the one segment there, and changes only with that segment.
    ensures owner { (ss : List Segment) (owner address : ℕ) → AreBlocks ss
        → Owns ss owner address ↔ IsSomeAnd (segment_at ss address) (λ s. s.owner ≡ owner) }
    ensures free { (ss : List Segment) (address : ℕ) → AreBlocks ss
        → (segment_at ss address ≡ None) ↔ IsFreeAddress ss address }
    ensures owns { (ss : List Segment) (owner address : ℕ) → (owns ss owner address ≡ true) ↔ Owns ss owner address }
    ensures may_store { (ss : List Segment) (domain sp bound address : ℕ)
        → (may_store ss domain sp bound address ≡ true) ↔ MayStore ss domain sp bound address }
    ensures holds { (ss : List Segment) (owner address : ℕ) → (holds ss owner address ≡ true) ↔ Holds ss owner address }
    ensures owner_inserted { (s : Segment) (ss : List Segment) (owner address : ℕ)
        → Owns (inserted s ss) owner address ↔ Owns (s ∷ ss) owner address }
    ensures owner_gone { (gone : ℕ) (ss : List Segment) (owner address : ℕ)
        → Owns (without_owner gone ss) owner address ↔ ((owner ≢ gone) × Owns ss owner address) }
{}

/// Laws of *Permitted load* (`specs/Load.antt`): what its test tells, and where a block of constants is.
pub fn load_laws()
    ensures may_load { (ss : List Segment) (domain : ℕ) (frame : Bool) (constants sp bound address : ℕ)
        → (may_load ss domain frame constants sp bound address ≡ true) ↔ MayLoad ss domain frame constants sp bound address }
    ensures constants { (ss : List Segment) (constants address : ℕ) → AreBlocks ss
        → IsConstant ss constants address ↔ IsSomeAnd (segment_at ss address) (λ s. AreConstants constants s) }
    ensures without_constants { (ss : List Segment) (address : ℕ) → ¬ IsConstant ss 0 address }
{}

/// Laws of the one segment that begins with a block, by which a map that sets and clears single segments
/// hands them over and takes all of an owner away.
pub fn segment_laws()
    // It is the segment at the block's first address, and the segment at an address is such a one.
    ensures at_its_start { (ss : List Segment) (block : ℕ) (s : Segment) → AreBlocks ss → starting_at ss block ≡ Some s
        → segment_at ss (block_address block) ≡ Some s }
    ensures from_its_start { (ss : List Segment) (address : ℕ) (s : Segment) → AreBlocks ss → segment_at ss address ≡ Some s
        → starting_at ss s.first ≡ Some s }

    // Without it its blocks are free, and with another owner in its place it is handed over.
    ensures free_again { (ss : List Segment) (block : ℕ) (s : Segment) → AreBlocks ss → starting_at ss block ≡ Some s
        → Fits (without block ss) s.first s.count }
    ensures put_back { (ss : List Segment) (block owner : ℕ) (s : Segment) → AreBlocks ss
        → starting_at ss block ≡ Some s
        → inserted (given_to owner s) (without block ss) ≡ handed_over block owner ss }
    ensures one_fewer { (ss : List Segment) (block owner : ℕ) (s : Segment) → AreBlocks ss
        → starting_at ss block ≡ Some s → s.owner ≡ owner
        → without_owner owner (without block ss) ≡ without_owner owner ss }
{}

/// Laws of *Least fit* (`specs/Fit.antt`): `fit` gives the lowest run of free blocks that is long enough,
/// and none exactly where no run is.
pub fn least_fit_laws()
    ensures least { (ss : List Segment) (count first : ℕ) → 1 ≤ count
        → (fit ss count ≡ Some first) ↔ IsLeastFit ss count first }
    ensures none { (ss : List Segment) (count : ℕ) → 1 ≤ count
        → (fit ss count ≡ None) ↔ ((first : ℕ) → ¬ Fits ss first count) }
{}
