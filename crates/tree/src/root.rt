// What every store shows of the root.
ghost use Rattle.std.specs.Prelude.{◌≡◌};
ghost use Rattle.tree.specs.Questions.{root};
ghost use Rattle.tree.specs.Meaning.{status_of};

use vocab::kind::Kind;
use vocab::name::Name;
use vocab::number::Number;
use vocab::stamp::Stamp;
use vocab::status::Status;

pub fn root_status() -> Status
    ensures { status_of result ≡ root }
{
    Status {
        number: Number::ROOT,
        kind: Kind::Directory,
        parent: Number::ROOT,
        name: Name::none(),
        stamp: Stamp::NONE,
    }
}
