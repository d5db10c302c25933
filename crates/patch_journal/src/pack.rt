ghost use Rattle.std.specs.Prelude.{◌≡◌, ◌+◌, ◌<◌, ◌≤◌, ◌^◌, ◌++◌, ◌∷◌, [], IfOk, IfErr, OnOk, length};
ghost use Rattle.std.specs.Int.{w32, to_be_bytes};
ghost use Rattle.value_bytes_spec.specs.Spelling.{CanSpell, IsPair, pair_bytes, text_bytes};
ghost use Rattle.journal_bytes.specs.Records.{CanRecord, kind_byte, body_bytes, name_bytes, record_bytes};
ghost use Rattle.patch_journal.specs.Journal.{IsReady, CanPack, CanPackPair};

use crate::journal::Journal;
use crate::ready::Ready;
use byteorder::{BigEndian, ByteOrder};
use journal_bytes::{Change, Format};
use std::alloc::{AllocError, Global};
use value_bytes::{Bytes, put_patches};
use values::{Pair, Text};

impl Journal {
    /// Makes a change ready for the disk. Where memory runs out, the journal is handed back as it was.
    ///
    /// The journal has fewer than 2^36 records. Of a change with patches, `check_value` accepts each value, each list and each
    /// path has fewer than 2^32 elements, both lists together weigh at most 2^22, and a name is a word of scripts that isn't
    /// reserved, and is there only where the journal's records are of format 2.
    pub fn pack(self, alloc: Global, change: &Change) -> Result<Ready, (Journal, AllocError)>
        requires room { self.records < 2 ^ 36 }
        requires change { CanPack self.format change.now }
        ensures ok { IfOk result (λ r. (r.spot ≡ self) × IsReady r change.now) }
        ensures err { IfErr result (λ e. e.0 ≡ self) }
    {
        match record_of(alloc, self.format, change) {
            Ok(bytes) => Ok(Ready {
                journal: self,
                bytes,
            }),
            Err(error) => Err((self, error)),
        }
    }
}

/// The record of a change and a closed gate.
fn record_of(alloc: Global, format: Format, change: &Change) -> Result<Bytes, AllocError>
    requires { CanPack format change.now }
    ensures bytes { IfOk result (λ b. b ≡ record_bytes format change.now ++ 0 ∷ []) }
    ensures can { OnOk result (CanRecord format change.now) }
    ensures long { IfOk result (λ b. 6 ≤ length b) }
    ensures short { IfOk result (λ b. length b < 39000000) }
{
    let mut body = Bytes::new(alloc);
    put_body(alloc, format, change, &mut body)?;
    let mut bytes = Bytes::new(alloc);
    bytes.append(&[kind_of(change)])?;
    put_length(&mut bytes, body.len())?;
    bytes.append(body.as_slice())?;
    bytes.append(&[0])?;
    Ok(bytes)
}

fn kind_of(change: &Change) -> u8
    ensures { result ≡ kind_byte change.now }
{
    match change {
        Change::Made(_, _) => 1,
        Change::Undone => 2,
        Change::Redone => 3,
    }
}

/// Appends a length of four bytes.
fn put_length(out: &mut Bytes, length: usize) -> Result<(), AllocError>
    requires { length < 2 ^ 32 }
    ensures { OnOk result (out.new ≡ out.old ++ to_be_bytes w32 length) }
{
    let mut bytes = [0; 4];
    BigEndian::write_u32(&mut bytes, length as u32);
    out.append(&bytes)
}

/// Appends what the record of a change holds.
fn put_body(
    alloc: Global,
    format: Format,
    change: &Change,
    out: &mut Bytes,
) -> Result<(), AllocError>
    requires { CanPack format change.now }
    ensures bytes { OnOk result (out.new ≡ out.old ++ body_bytes format change.now) }
    ensures can { OnOk result (CanRecord format change.now) }
{
    match change {
        Change::Made(pair, by) => {
            put_name(format, by, out)?;
            put_pair(alloc, pair, out)?;
        }
        Change::Undone | Change::Redone => {}
    }
    Ok(())
}

/// Appends the name in front of a pair.
fn put_name(format: Format, by: &Option<Text>, out: &mut Bytes) -> Result<(), AllocError>
    ensures { OnOk result (out.new ≡ out.old ++ name_bytes format by.now) }
{
    match format {
        Format::One => Ok(()),
        Format::Two => put_some_name(by, out),
    }
}

fn put_some_name(by: &Option<Text>, out: &mut Bytes) -> Result<(), AllocError>
    ensures { OnOk result (out.new ≡ out.old ++ name_bytes Format.Two by.now) }
{
    match by {
        Some(name) => put_text(name, out),
        None => put_length(out, 0),
    }
}

fn put_text(text: &Text, out: &mut Bytes) -> Result<(), AllocError>
    ensures { OnOk result (out.new ≡ out.old ++ text_bytes text.now) }
{
    let letters = text.as_str();
    put_length(out, letters.len())?;
    out.append(letters.as_bytes())
}

/// Appends the forward and the inverse list.
fn put_pair(alloc: Global, pair: &Pair, out: &mut Bytes) -> Result<(), AllocError>
    requires forward { CanSpell pair.now.forward }
    requires inverse { CanSpell pair.now.inverse }
    ensures bytes { OnOk result (out.new ≡ out.old ++ pair_bytes pair.now) }
    ensures can { OnOk result (IsPair pair.now) }
{
    put_patches(alloc, &pair.forward, out)?;
    put_patches(alloc, &pair.inverse, out)
}
