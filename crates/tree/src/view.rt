// What shows a lawful tree, and answers questions about it as the definitions say.
ghost use Rattle.std.specs.Prelude.{◌≡◌, length};
ghost use Rattle.std.specs.Option.{option_map};
ghost use Rattle.tree.specs.Trees.{Tree};
ghost use Rattle.tree.specs.Questions.{look, child, shown, read};
ghost use Rattle.tree.specs.Law.{Lawful};
ghost use Rattle.tree.specs.Meaning.{status_of};

use vocab::number::Number;
use vocab::refusal::Refusal;
use vocab::status::Status;

pub trait TreeView {
    // The tree that is shown.
    ghost tree: { Self → Tree };

    ghost lawful: { (s : Self) → Lawful (tree s) };

    fn capacity(&self) -> usize
        ensures { result ≡ (tree self.now).capacity };

    fn next_number(&self) -> Number
        ensures { result ≡ (tree self.now).next };

    fn count(&self) -> usize
        ensures { result ≡ length (tree self.now).objects };

    // The number bound to a name in a directory.
    fn look(&self, directory: Number, name: &[u8]) -> Option<Number>
        ensures { result ≡ look directory name.now (tree self.now).objects };

    // All but the contents.
    fn object(&self, number: Number) -> Option<Status>
        ensures { option_map status_of result ≡ shown number (tree self.now).objects };

    // The smallest number above `above` among a directory's objects.
    fn child(&self, directory: Number, above: Number) -> Option<Number>
        ensures { result ≡ child directory above (tree self.now).objects };

    // A file's contents into the front of a buffer; their length.
    fn contents(&self, number: Number, buffer: &mut [u8]) -> Result<usize, Refusal>
        ensures { (buffer.new, result) ≡ read (tree self.now) number buffer.old };
}
