//! What a node needs of that which keeps its state on its disks. The calls by which a keeper appends a record are its own.
ghost use Rattle.std.specs.Prelude.{◌≡◌};
ghost use Rattle.iot_node.specs.{Disks.KeepsImages, Disks.OnlyImage, Keeping.Armed, Keeping.CanStart, Keeping.Comes};
ghost use Rattle.iot_node.specs.{Keeping.EachIs, Keeping.Fails, Keeping.Keeping, Prelude.IfErr, Prelude.IfOk, Prelude.Storing, Prelude.ℕ};

use iot_disk::{Pick, StartFault};
use std::alloc::Global;

/// What keeps a node's state on its disks, one or more: a server's store, or what is kept of a client.
pub trait Keeper<P> {
    /// The state that it keeps, for a reader.
    ghost Kept: { Type 0 };

    /// What a crash leaves of its disks.
    ghost Image: { Type 0 };

    /// What a read of its disks gives, what a crash now may leave of them, and what they have counted.
    ghost medium: { Storing P Image };

    /// Its disks.
    ghost disks: { Self → P };

    /// For which state, with how many records modulo 2^64, a keeper at this place among its kind stands, and an image of its disks.
    ghost keeping: { ℕ → Keeping Self Kept P Image disks };

    /// What a keeper has besides, of which its disks know nothing.
    ghost Live: { Type 0 };

    /// That of this keeper.
    ghost live: { Self → Live };

    /// That of one that was just started.
    ghost fresh: { Live };

    /// What disks have besides, of which their node knows nothing.
    ghost Beside: { Type 0 };

    /// That of these disks.
    ghost beside: { P → Beside };

    /// Starts from its disks, at this place among its kind. They come back if this gives no keeper.
    fn start(alloc: Global, disk: P, place: u64) -> Result<Self, (P, StartFault)>
        requires only { OnlyImage (medium.reads disk) (medium.may_leave disk) }
        requires can { CanStart (keeping place) (medium.reads disk) }
        ensures comes { IfOk result (Comes (keeping place) medium disk) }
        ensures live { IfOk result (λ made. live made ≡ fresh) }
        ensures beside { IfOk result (λ made. beside (disks made) ≡ beside disk) }
        ensures fails { IfErr result (λ refused. Fails (keeping place) medium disk refused.0 refused.1) }
        ensures left { IfErr result (λ refused. beside refused.0 ≡ beside disk) };

    /// How many records were ever appended, modulo 2^64.
    fn records(&self) -> u64
        ensures { (place n : ℕ) (s : Kept) → (keeping place).stands self.now n s → result ≡ n };

    /// Makes a later device call of its disks fail.
    fn arm(&mut self, calls: u64, pick: Pick)
        ensures stands { (place n : ℕ) (s : Kept) → (keeping place).stands self.old n s → (keeping place).stands self.new n s }
        ensures counts { Armed medium calls pick (disks self.old) (disks self.new) }
        ensures live { live self.new ≡ live self.old }
        ensures beside { beside (disks self.new) ≡ beside (disks self.old) };

    /// Gives the disks back.
    fn into_disk(self) -> P
        ensures disk { result ≡ disks self }
        ensures images { (place n : ℕ) (s : Kept) → (keeping place).stands self n s
            → EachIs (medium.may_leave result) (λ image. (keeping place).image image n s) };

    // ---- disks that no keeper has

    /// Starts them again, as after a crash: they read as one of their images, which is then the only one.
    fn restart(disk: &mut P)
        ensures image { medium.may_leave disk.old (medium.reads disk.new) }
        ensures only { OnlyImage (medium.reads disk.new) (medium.may_leave disk.new) }
        ensures faults { medium.faults disk.new ≡ medium.faults disk.old }
        ensures arms { medium.arms disk.new ≡ medium.arms disk.old }
        ensures beside { beside disk.new ≡ beside disk.old };

    /// Makes a later device call of theirs fail.
    fn arm_down(disk: &mut P, calls: u64, pick: Pick)
        ensures counts { Armed medium calls pick disk.old disk.new }
        ensures images { KeepsImages (medium.may_leave disk.old) (medium.may_leave disk.new) }
        ensures beside { beside disk.new ≡ beside disk.old };

    /// Disks as they read are one of their images.
    ghost reads_is_image: { (disk : P) → medium.may_leave disk (medium.reads disk) };
}
