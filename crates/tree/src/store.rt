// A store: what keeps a lawful tree, shows it, and changes it as the definitions say.
ghost use Rattle.std.specs.Prelude.{◌≡◌};
ghost use Rattle.tree.specs.Changes.{added, put as put_in, dropped, moved, next_set, cleared};

use crate::view::TreeView;
use vocab::kind::Kind;
use vocab::number::Number;
use vocab::refusal::Refusal;
use vocab::stamp::Stamp;

pub trait Store: TreeView {
    // A new directory, or an empty file. Directory and name are two parameters here as in `look`: a struct of the
    // two says no more.
    fn add(
        &mut self,
        kind: Kind,
        parent: Number,
        name: &[u8],
        number: Number,
        stamp: Stamp,
    ) -> Result<(), Refusal>
        ensures { (Self.tree self.new, result) ≡ added (Self.tree self.old) kind parent name.now number stamp };

    // New contents and stamp for a file.
    fn put(&mut self, number: Number, contents: &[u8], stamp: Stamp) -> Result<(), Refusal>
        ensures { (Self.tree self.new, result) ≡ put_in (Self.tree self.old) number contents.now stamp };

    fn drop_object(&mut self, number: Number) -> Result<(), Refusal>
        ensures { (Self.tree self.new, result) ≡ dropped (Self.tree self.old) number };

    // Another parent and name for an object.
    fn move_object(&mut self, number: Number, parent: Number, name: &[u8]) -> Result<(), Refusal>
        ensures { (Self.tree self.new, result) ≡ moved (Self.tree self.old) number parent name.now };

    fn set_next(&mut self, next: Number) -> Result<(), Refusal>
        ensures { (Self.tree self.new, result) ≡ next_set (Self.tree self.old) next };

    // Drops all objects.
    fn clear(&mut self)
        ensures { Self.tree self.new ≡ cleared (Self.tree self.old) };
}
