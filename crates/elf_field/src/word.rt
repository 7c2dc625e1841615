//! Words of four bytes, as index tables, section groups and hash tables hold (gABI chapter 4, Data Representation).
ghost use Rattle.elf_field.specs.Entries.{IsWord, IsWordAt, word_at, word_bytes};
ghost use Rattle.elf_field.specs.laws.Entries.{word_fields_at, word_laws};

use crate::abi::WORD_SIZE;
use crate::number::Order;
use crate::record::Record;
use byteorder::{BigEndian, ByteOrder, LittleEndian};

/// A word of four bytes (`Elf64_Word`): index tables, section groups and hash tables are lists of them.
impl Record for u32 {
    ghost use Rattle.elf_field.specs.Abi.{WORD_SIZE};

    ghost SIZE = { WORD_SIZE };

    ghost at = { word_at };

    ghost bytes = { word_bytes };

    ghost IsAt = { IsWordAt };

    ghost IsValid = { IsWord };

    ghost laws = { word_laws };

    ghost fields_at = { word_fields_at };

    const SIZE: usize = WORD_SIZE as usize;

    #[tactic(auto, unfolding(crate::specs::Bytes::num))]
    fn get(order: Order, b: &[u8]) -> Self {
        match order {
            Order::Little => LittleEndian::read_u32(b),
            Order::Big => BigEndian::read_u32(b),
        }
    }

    #[tactic(auto, unfolding(crate::specs::Bytes::bytes_of))]
    fn put(&self, order: Order, b: &mut [u8]) {
        match order {
            Order::Little => LittleEndian::write_u32(b, *self),
            Order::Big => BigEndian::write_u32(b, *self),
        }
    }

    fn fits(&self) {
        let _word = *self;
    }
}
