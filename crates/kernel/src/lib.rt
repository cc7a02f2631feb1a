// The kernels: four reversible transforms of a line, each with a number and a reach.
#![tactic(auto)]

ghost use Rattle.std.specs.Prelude.{◌≡◌};
ghost use Rattle.kernel.specs.Kernels.{kernel_of, reach};

// Kernels 0 to 3, in their order. An enum, so that no value of it is a kernel of another number.
#[derive(Clone, Copy)]
pub enum Kernel {
    S,
    SPlusP,
    TT,
    FiveThree,
}

impl Kernel {
    // How many kernels there are: their numbers are below it.
    pub const COUNT: usize = 4;

    // The reach of each kernel, by its number.
    pub const REACH: [usize; 4] = [0, 1, 2, 1];

    // The kernel of a number, any number; `None` where there is none.
    pub fn new(number: usize) -> Option<Kernel>
        ensures { result ≡ kernel_of number }
    {
        if number >= Self::COUNT {
            return None;
        }
        match number {
            0 => Some(Kernel::S),
            1 => Some(Kernel::SPlusP),
            2 => Some(Kernel::TT),
            _ => Some(Kernel::FiveThree),
        }
    }

    // How far the kernel reaches, in pairs of samples.
    pub fn reach(self) -> usize
        ensures { result ≡ reach self }
    {
        match self {
            Kernel::S => Kernel::REACH[0],
            Kernel::SPlusP => Kernel::REACH[1],
            Kernel::TT => Kernel::REACH[2],
            Kernel::FiveThree => Kernel::REACH[3],
        }
    }
}
