//! Files written word by word.
use crate::listing::{Pair, SmallWait};
use std::alloc::{AllocError, Global};

// The words of a file that is being written.
#[derive(Drop)]
pub(crate) struct Writer {
    bytes: Vec<u8>,
    columns: u32,
}

impl Writer {
    pub(crate) fn new(heap: Global) -> Writer {
        Writer {
            bytes: Vec::new(heap),
            columns: 0,
        }
    }

    pub(crate) fn word(&mut self, w: u32) -> Result<(), AllocError> {
        for b in w.to_be_bytes() {
            self.bytes.push(b)?;
        }
        self.columns ^= w & 0xfff_ffff;
        Ok(())
    }

    pub(crate) fn heading(&mut self, measure: u32, events: u32) -> Result<(), AllocError> {
        self.word(0x1000_0000 | ((measure & 0xf) << 24) | (events & 0xfff))
    }

    pub(crate) fn wait(&mut self, w: SmallWait, places: usize) -> Result<(), AllocError> {
        self.word(0x2000_0000 | ((w.start & 0xfff) << 12) | (w.end & 0xfff))?;
        self.row(w.amount, places)
    }

    pub(crate) fn claim(
        &mut self,
        total: Pair,
        count: u32,
        places: usize,
    ) -> Result<(), AllocError> {
        self.word(0x4000_0000 | (count & 0xfff))?;
        self.row(total, places)
    }

    fn row(&mut self, amount: Pair, places: usize) -> Result<(), AllocError> {
        self.place(amount.first)?;
        if places > 1 {
            self.place(amount.second)?;
        }
        Ok(())
    }

    // A place by two's complement, cut to 28 bits.
    pub(crate) fn place(&mut self, z: i64) -> Result<(), AllocError> {
        let body = z.rem_euclid(0x1000_0000);
        self.word(0x3000_0000 | (body as u32))
    }

    // The closing word that the words so far ask for.
    pub(crate) fn closing(&mut self) -> Result<(), AllocError> {
        let columns = self.columns;
        self.word(0x5000_0000 | columns)
    }

    pub(crate) fn bytes(&self) -> &[u8] {
        self.bytes.as_slice()
    }
}
