//! What was measured.

use std::fmt;

/// How long one piece of work took, and how much it was.
#[derive(Clone, Copy)]
pub struct Figure {
    name: &'static str,
    // The bytes of the matrix that it read.
    bytes: u64,
    // How many products of two words it added.
    products: u64,
    nanos: u64,
    // A sum of the words that it made, to compare them with another program's.
    check: u32,
}

const GIB: u128 = 1 << 30;

const NANOS: u128 = 1_000_000_000;

impl Figure {
    /// The figure of a piece of work that read so many words and made these.
    pub fn new(
        name: &'static str,
        words: usize,
        products: usize,
        nanos: u64,
        made: &[u32],
    ) -> Figure {
        let mut check = 0u32;
        for word in made {
            check = check.wrapping_mul(31).wrapping_add(*word);
        }
        Figure {
            name,
            bytes: (words as u64).saturating_mul(4),
            products: products as u64,
            nanos,
            check,
        }
    }

    // Hundredths of a GiB in a second.
    fn speed(&self) -> u128 {
        u128::from(self.bytes) * NANOS * 100 / GIB / u128::from(self.nanos.max(1))
    }

    // Millions of products in a second.
    fn rate(&self) -> u128 {
        u128::from(self.products) * 1000 / u128::from(self.nanos.max(1))
    }

    /// Prints it in a line, if a time is given with that in place of its own.
    pub fn print(mut self, rt: &HostRuntime, nanos: Option<u64>) -> Option<()> {
        self.nanos = nanos.unwrap_or(self.nanos);
        println!(rt; "{self}").ok()
    }
}

impl fmt::Display for Figure {
    fn fmt<W: fmt::Write>(&self, f: &mut fmt::Formatter<W>) -> fmt::Result {
        let micros = self.nanos / 1000;
        let speed = self.speed();
        write!(
            f,
            "{}\t{}.{:03} ms\t{}.{:02} GiB/s\t{} M products/s\tcheck {}",
            self.name,
            micros / 1000,
            micros % 1000,
            speed / 100,
            speed % 100,
            self.rate(),
            self.check
        )
    }
}
