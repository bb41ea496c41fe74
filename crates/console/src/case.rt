// A case that a program is given: words, four bytes each, low byte first, and what follows them.
ghost use Rattle.std.specs.Prelude.{◌≡◌, ◌*◌, ◌≤◌, ◌<◌, length, drop, take, map, [], IfOk, OnOk, IsOk, IsErr, IsTrue, ◌↔◌, vec_len, Err};
ghost use Rattle.rules.specs.Units.{steps};
ghost use Rattle.rules.specs.Records.{word_at, signed_of};
ghost use Rattle.words.specs.Bytes.{words_from};
ghost use Rattle.console.specs.Reading.{prices_from};
ghost use Rattle.console.specs.declared.case.CaseError.TheVariants.{Failed};
ghost use Rattle.std.specs.declared.io.Error.{Error};

use rules::Steps;
use std::alloc::{AllocError, Global};
use std::io;

// Why a case has no answer: it is none, or memory or the output failed.
#[derive(Debug, Drop)]
pub enum CaseError {
    NoCase,
    Failed(io::Error),
}

impl From<io::Error> for CaseError {
    fn from(e: io::Error) -> CaseError {
        CaseError::Failed(e)
    }
}

impl From<AllocError> for CaseError {
    fn from(e: AllocError) -> CaseError {
        CaseError::Failed(io::Error::from(e))
    }
}

impl CaseError {
    // The end of a program that runs one case: it says so where there was none.
    pub fn report(self, rt: &impl Print) -> io::Result<()>
        ensures { (e : Error) → self ≡ Failed e → result ≡ Err e }
    {
        match self {
            CaseError::NoCase => println!(rt; "bad case"),
            CaseError::Failed(e) => Err(e),
        }
    }
}

// What is still to be read of a case.
#[derive(Clone, Copy)]
pub struct Case<'a> {
    pub alloc: Global,
    pub rest: &'a [u8],
}

impl<'a> Case<'a> {
    // So many bytes.
    pub fn bytes(&mut self, n: usize) -> Result<&'a [u8], CaseError>
        ensures fits { IsOk result ↔ (n ≤ length self.old.rest.now) }
        ensures front { IfOk result (λ bytes. bytes.now ≡ take n self.old.rest.now) }
        ensures behind { OnOk result (self.new.rest.now ≡ drop n self.old.rest.now) }
    {
        let rest = self.rest;
        if rest.len() < n {
            return Err(CaseError::NoCase);
        }
        self.rest = &rest[n..];
        Ok(&rest[..n])
    }

    pub fn word(&mut self) -> Result<u32, CaseError>
        ensures fits { IsOk result ↔ (4 ≤ length self.old.rest.now) }
        ensures value { IfOk result (λ w. w ≡ word_at self.old.rest.now 0) }
        ensures behind { OnOk result (self.new.rest.now ≡ drop 4 self.old.rest.now) }
    {
        let rest = self.rest;
        if rest.len() < 4 {
            return Err(CaseError::NoCase);
        }
        self.rest = &rest[4..];
        Ok(words::word_at(rest, 0))
    }

    pub fn price(&mut self) -> Result<Steps, CaseError>
        ensures fits { IsOk result ↔ (4 ≤ length self.old.rest.now) }
        ensures value { IfOk result (λ p. p ≡ steps (signed_of (word_at self.old.rest.now 0))) }
        ensures behind { OnOk result (self.new.rest.now ≡ drop 4 self.old.rest.now) }
    {
        Ok(words::to_steps(self.word()?))
    }

    // A word that is 0 or 1.
    pub fn flag(&mut self) -> Result<bool, CaseError>
        ensures fits { IsOk result ↔ ((4 ≤ length self.old.rest.now) × (word_at self.old.rest.now 0 ≤ 1)) }
        ensures value { IfOk result (λ b. IsTrue b ↔ (word_at self.old.rest.now 0 ≡ 1)) }
        ensures behind { OnOk result (self.new.rest.now ≡ drop 4 self.old.rest.now) }
    {
        Ok(self.count(1)? == 1)
    }

    // A word of at most so much.
    pub fn count(&mut self, most: usize) -> Result<usize, CaseError>
        ensures fits { IsOk result ↔ ((4 ≤ length self.old.rest.now) × (word_at self.old.rest.now 0 ≤ most)) }
        ensures value { IfOk result (λ n. (n ≡ word_at self.old.rest.now 0) × (n ≤ most)) }
        ensures behind { OnOk result (self.new.rest.now ≡ drop 4 self.old.rest.now) }
    {
        let n = self.word()? as usize;
        if most < n {
            return Err(CaseError::NoCase);
        }
        Ok(n)
    }

    // So many words.
    pub fn words(&mut self, n: usize) -> Result<Vec<u32>, CaseError>
        requires { n < 4294967296 }
        ensures short { length self.old.rest.now < 4 * n → IsErr result }
        ensures value { IfOk result (λ words. words.items ≡ words_from self.old.rest.now 0 n) }
        ensures len { IfOk result (λ words. vec_len words ≡ n) }
        ensures behind { OnOk result (self.new.rest.now ≡ drop (4 * n) self.old.rest.now) }
    {
        let rest = self.rest;
        self.bytes(4 * n)?;
        let mut words = vec![in self.alloc; 0; n]?;
        crate::read_words(rest, 0, &mut words);
        Ok(words)
    }

    // So many prices.
    pub fn prices(&mut self, n: usize) -> Result<Vec<i32>, CaseError>
        requires { n < 4294967296 }
        ensures short { length self.old.rest.now < 4 * n → IsErr result }
        ensures value { IfOk result (λ prices. prices.items ≡ prices_from self.old.rest.now 0 n) }
        ensures behind { OnOk result (self.new.rest.now ≡ drop (4 * n) self.old.rest.now) }
    {
        let rest = self.rest;
        self.bytes(4 * n)?;
        let mut prices = vec![in self.alloc; 0; n]?;
        crate::read_prices(rest, 0, &mut prices);
        Ok(prices)
    }

    // Nothing may follow.
    pub fn end(&self) -> Result<(), CaseError>
        ensures { IsOk result ↔ (self.now.rest.now ≡ []) }
    {
        if self.rest.is_empty() {
            Ok(())
        } else {
            Err(CaseError::NoCase)
        }
    }
}
