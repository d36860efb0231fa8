//! The decoder of a connection's header blocks.
#![tactic(auto)]

ghost use Rattle.std.specs.Prelude.{◌≡◌, [], List, ℕ, ◌∷◌, Err, IfOk, IfErr};
ghost use Rattle.hpack.specs.declared.fault.HpackFault.{HpackFault};
ghost use Rattle.hpack.specs.Tables.{first_table};
ghost use Rattle.hpack.specs.Outcomes.{Refuses};
ghost use Rattle.hpack.specs.Decoding.{Standing, Good, Broken, standing_of, decode_block, Decodes, StandsFor, IsBounded, Reads, ReadsAlone, IsNoBlock};

use crate::blocks::headers;
use crate::dynamic_table::DynamicTable;
use crate::fault::HpackFault;
use std::alloc::Global;
use std::marker::Model;
use wl_octets::{Header, Row};

/// A decoder of the header blocks of one connection, in their order. It fails for good.
#[derive(Drop)]
pub struct Decoder {
    table: DynamicTable,
    fault: Option<HpackFault>,
}

impl Model for Decoder {
    ghost Value = { Standing };

    ghost view = { λ decoder. standing_of decoder.fault decoder.table };
}

impl Decoder {
    /// A decoder with the empty table, whose maximum size is 4,096. It takes no memory.
    pub fn start(alloc: Global) -> Decoder
        ensures start { result ≡ Good first_table }
        ensures stands { StandsFor result [] }
        ensures bounded { IsBounded result }
    {
        Decoder {
            table: DynamicTable::start(alloc),
            fault: None,
        }
    }

    /// Goes on by one block.
    fn advance(&mut self, alloc: Global, block: &[u8]) -> Result<Row<Header>, HpackFault>
        ensures step { Decodes result self.new (decode_block self.old block.now) }
        ensures again { (fault : HpackFault) → self.old ≡ Broken fault
            → (result ≡ Err fault) × (self.new ≡ Broken fault) }
        ensures bounded { IsBounded self.new }
    {
        if let Some(fault) = self.fault {
            return Err(fault);
        }
        match headers(alloc, &mut self.table, block) {
            Ok(headers) => {
                self.table.bounds();
                Ok(headers)
            }
            Err(fault) => {
                self.fault = Some(fault);
                Err(fault)
            }
        }
    }

    /// The headers of the next block, or the fault of its leftmost wrong representation; after a fault or `Memory` each
    /// later call answers it again.
    pub fn block(&mut self, alloc: Global, block: &[u8]) -> Result<Row<Header>, HpackFault>
        // It is one step, and it fails for good.
        ensures step { Decodes result self.new (decode_block self.old block.now) }
        ensures again { (fault : HpackFault) → self.old ≡ Broken fault
            → (result ≡ Err fault) × (self.new ≡ Broken fault) }
        // What is read is a block of the standard, and as such nothing else; what is refused is none.
        ensures found { IfOk result (λ headers. Reads self.old block.now headers self.new) }
        ensures only { IfOk result (λ headers. ReadsAlone self.old block.now headers self.new) }
        ensures err { IfErr result (λ fault. Refuses fault (IsNoBlock self.old block.now)) }
        // It stands for the blocks that it was given, the last of them first, and its table stays within its size.
        ensures stands { (blocks : List (List ℕ)) → StandsFor self.old blocks
            → StandsFor self.new (block.now ∷ blocks) }
        ensures bounded { IsBounded self.new }
    {
        self.advance(alloc, block)
    }
}
