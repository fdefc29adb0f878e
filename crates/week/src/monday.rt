// Monday: the office sets up a library of presets at the server.
use crate::step::Step;

pub const STEPS: [Step; 28] = [
    Step::Mkdir("factory"),
    Step::Mkdir("artists"),
    Step::Mkdir("factory/rock"),
    Step::Create("factory/lead.pre"),
    Step::Store("factory/lead.pre", "gain 5 tone 6"),
    Step::Create("factory/bass.pre"),
    Step::Store("factory/bass.pre", "gain 2 low 8"),
    Step::Create("factory/clean.pre"),
    Step::Store("factory/clean.pre", "gain 0"),
    Step::Create("factory/rock/fuzz.pre"),
    // Clashes: each is refused, and nothing changes.
    Step::Create("factory/lead.pre"),
    Step::Create("studio/lead.pre"),
    Step::Create("factory/lead.pre/new.pre"),
    Step::Create("factory/my lead.pre"),
    Step::Store("artists/lead.pre", "gain 9"),
    Step::Rmdir("factory"),
    Step::Remove("factory"),
    Step::Rename("factory", "factory/rock/factory"),
    Step::Rename("artists", "factory"),
    // Tidying up.
    Step::Rename("factory/clean.pre", "artists/glass.pre"),
    Step::Rename("factory/rock", "rock"),
    Step::Remove("factory/bass.pre"),
    Step::Store("factory/lead.pre", "gain 7 tone 4 echo 2"),
    // Until the server is full; what is removed makes room.
    Step::Mkdir("rock/heavy"),
    Step::Create("rock/heavy/doom.pre"),
    Step::Create("artists/wah.pre"),
    Step::Remove("rock/fuzz.pre"),
    Step::Create("artists/wah.pre"),
];
