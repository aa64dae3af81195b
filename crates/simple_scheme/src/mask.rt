//! What hides a column or a row in an encryption.

ghost use Rattle.std.specs.Prelude.{◌≡◌, ◌+◌, ◌^◌, ◌<◌, ◌≤◌, length, IfOk};
ghost use Rattle.seed_expand.specs.Words.{words_from, source_rows};
ghost use Rattle.noise_table.specs.Noise.{noise_from};
ghost use Rattle.regev_core.specs.Encryption.{cipher, with_noise};
ghost use Rattle.simple_scheme.specs.Buffers.{HasSize};

use matrix_u32::{Kernel, Matrix};
use noise_table::fill_noise;
use seed_expand::{WordSource, expand_times, fill_words};
use std::alloc::{AllocError, Global};
use std::marker::Model;

/// The secret of an encryption and its noise, with memory for a row of a public matrix. The memory
/// is taken by sizes alone, and kept from one encryption to the next.
///
/// A contract sees the secret and the noise.
#[derive(Drop)]
pub struct Mask {
    secret: Vec<u32>,
    noise: Vec<i32>,
    // As long as the secret.
    row: Vec<u32>,
}

impl Model for Mask {
    ghost use Rattle.std.specs.Prelude.{◌≡◌, length};
    ghost use Rattle.simple_scheme.specs.Buffers.{Masking};

    ghost Value = { Masking };

    ghost view = { λ m. record { secret = m.secret.items; noise = m.noise.items } };

    ghost invariant = { λ m. length m.row.items ≡ length m.secret.items };
}

impl Mask {
    /// Zeros, for encryptions under a matrix of so many rows and columns.
    pub fn zeros(alloc: Global, rows: usize, cols: usize) -> Result<Mask, AllocError>
        ensures { IfOk result (HasSize rows cols) }
    {
        Ok(Mask {
            secret: vec![in alloc; 0; cols]?,
            noise: vec![in alloc; 0; rows]?,
            row: vec![in alloc; 0; cols]?,
        })
    }

    /// Draws the secret from a stream of the seed, from a place on, and the noise from the stream
    /// after, from a place on.
    pub fn draw(&mut self, seed: &[u8; 32], stream: u64, secret_at: u64, noise_at: u64)
        requires { stream + 1 < 2 ^ 64 }
        ensures secret { self.new.secret ≡
            words_from seed.now stream secret_at (length self.old.secret) }
        ensures noise { self.new.noise ≡
            noise_from seed.now (stream + 1) noise_at (length self.old.noise) }
        ensures size { HasSize (length self.old.noise) (length self.old.secret) self.new }
    {
        draw_words(seed, stream, secret_at, &mut self.secret);
        draw_noise(seed, stream + 1, noise_at, &mut self.noise);
    }

    /// Writes the encryption of the unit vector with its 1 at `place`, in digits of w bits, under a
    /// matrix of the mask's size.
    pub fn encrypt<K: Kernel>(&self, kernel: K, a: &Matrix, w: u32, place: usize, out: &mut [u32])
        requires width { (6 ≤ w) × (w ≤ 10) }
        requires place { place < a.now.rows }
        requires size { HasSize a.now.rows a.now.cols self.now }
        requires room { length out.old ≡ a.now.rows }
        ensures { out.new ≡ cipher w a.now self.now.secret self.now.noise place }
    {
        regev_core::encrypt(kernel, a, &self.secret, &self.noise, place, w, out);
    }

    /// Writes the same under the matrix whose words a source gives, row by row, as many as there
    /// are words. No more than a row of it is held at any time.
    pub fn encrypt_under<K: Kernel>(
        &mut self,
        kernel: K,
        source: WordSource,
        w: u32,
        place: usize,
        out: &mut [u32],
    )
        requires width { (6 ≤ w) × (w ≤ 10) }
        requires place { place < length out.old }
        requires size { length self.old.noise ≡ length out.old }
        ensures words { out.new ≡
            cipher w (source_rows source (length out.old) (length self.old.secret))
            self.old.secret self.old.noise place }
        ensures same { self.new ≡ self.old }
    {
        expand_times(kernel, source, &self.secret, &mut self.row, out);
        regev_core::add_noise(&self.noise, place, w, out);
    }

    /// Adds the noise to words, and delta at `place`: to the products of a matrix and the secret,
    /// which makes them the encryption under that matrix.
    pub(crate) fn cover(&self, w: u32, place: usize, out: &mut [u32])
        requires width { (6 ≤ w) × (w ≤ 10) }
        requires place { place < length out.old }
        requires size { length self.now.noise ≡ length out.old }
        ensures { out.new ≡ with_noise w out.old self.now.noise place }
    {
        regev_core::add_noise(&self.noise, place, w, out);
    }
}

/// Fills a slice with the words of a stream of the seed, from a place on.
pub(crate) fn draw_words(seed: &[u8; 32], stream: u64, place: u64, out: &mut [u32])
    ensures { out.new ≡ words_from seed.now stream place (length out.old) }
{
    seed_expand::source_gives_words();
    fill_words(&mut WordSource::at(seed, stream, place), out);
}

/// Fills a slice with the noise of a stream of the seed, from a place on.
pub fn draw_noise(seed: &[u8; 32], stream: u64, place: u64, out: &mut [i32])
    ensures { out.new ≡ noise_from seed.now stream place (length out.old) }
{
    seed_expand::source_gives_words();
    fill_noise(&mut WordSource::at(seed, stream, place), out);
}
