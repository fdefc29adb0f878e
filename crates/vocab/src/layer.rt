// Which part of the software refused, and the word that is printed of it.
ghost use Rattle.std.specs.Prelude.{◌≡◌};
ghost use Rattle.vocab.specs.Layers.{word};

use std::fmt;

#[derive(Clone, Copy, PartialEq, Eq, Debug)]
pub enum Layer {
    Log,
    Image,
    Server,
    Copy,
    Loader,
}

impl Layer {
    pub fn word(self) -> &'static str
        ensures { result.now ≡ word self }
    {
        match self {
            Layer::Log => "log",
            Layer::Image => "image",
            Layer::Server => "server",
            Layer::Copy => "copy",
            Layer::Loader => "loader",
        }
    }
}

impl fmt::Display for Layer {
    ghost use Rattle.std.specs.Prelude.{Some};
    ghost use Rattle.vocab.specs.Layers.{word};

    ghost output = { λ layer. Some (word layer) };

    fn fmt<W: fmt::Write>(&self, f: &mut fmt::Formatter<W>) -> fmt::Result {
        f.write_str(self.word())
    }
}
