// A register file that takes words.
ghost use Rattle.std.specs.Prelude.{◌≡◌, false, replicate};
ghost use Rattle.runner.specs.Fillings.{taken};

// The file as the step began, as it is now, and which registers took a word already.
#[derive(Clone, Copy)]
pub struct Filling {
    pub began: [u16; 80],
    pub words: [u16; 80],
    pub written: [bool; 80],
}

impl Filling {
    // A file that has taken nothing yet.
    pub(crate) fn new(file: [u16; 80]) -> Filling
        ensures { result ≡ record { began = file; words = file; written = replicate 80 false } }
    {
        Filling {
            began: file,
            words: file,
            written: [false; 80],
        }
    }

    // The register takes the word; where it took one already, 0.
    #[tactic(auto, unfolding(crate::specs::Fillings::taken))]
    pub(crate) fn take(&mut self, register: u8, x: u16)
        ensures { self.new ≡ taken self.old register x }
    {
        let i = usize::from(register);
        if i < 80 {
            self.words[i] = if self.written[i] { 0 } else { x };
            self.written[i] = true;
        }
    }
}
