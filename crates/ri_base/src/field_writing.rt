// Fields behind the bytes that are written.
ghost use Rattle.std.specs.Prelude.{◌≡◌, ◌<◌, ◌++◌, length, IsTrue, OnOk};
ghost use Rattle.std.specs.Int.{w16, w32, w64, to_le_bytes};
ghost use Rattle.ri_base.specs.Text.{is_docno, is_name, is_term};
ghost use Rattle.ri_base.specs.Spelling.{spelled_text};

use crate::{Docno, Name, NoMemory, Term};
use byteorder::{ByteOrder, LittleEndian};

pub fn put_u16(out: &mut Vec<u8>, number: u16) -> Result<(), NoMemory>
    ensures { OnOk result (out.new.items ≡ out.old.items ++ to_le_bytes w16 number) }
{
    let mut bytes = [0u8; 2];
    LittleEndian::write_u16(&mut bytes, number);
    out.extend_from_slice(&bytes)?;
    Ok(())
}

pub fn put_u32(out: &mut Vec<u8>, number: u32) -> Result<(), NoMemory>
    ensures { OnOk result (out.new.items ≡ out.old.items ++ to_le_bytes w32 number) }
{
    let mut bytes = [0u8; 4];
    LittleEndian::write_u32(&mut bytes, number);
    out.extend_from_slice(&bytes)?;
    Ok(())
}

pub fn put_u64(out: &mut Vec<u8>, number: u64) -> Result<(), NoMemory>
    ensures { OnOk result (out.new.items ≡ out.old.items ++ to_le_bytes w64 number) }
{
    let mut bytes = [0u8; 8];
    LittleEndian::write_u64(&mut bytes, number);
    out.extend_from_slice(&bytes)?;
    Ok(())
}

/// A text behind its length.
fn put_text(out: &mut Vec<u8>, text: &[u8]) -> Result<(), NoMemory>
    requires { length text.now < 256 }
    ensures { OnOk result (out.new.items ≡ out.old.items ++ spelled_text text.now) }
{
    out.push(text.len() as u8)?;
    out.extend_from_slice(text)?;
    Ok(())
}

#[tactic(auto, using(crate::proofs::FieldTextLemmas::short_docno))]
pub fn put_docno(out: &mut Vec<u8>, docno: &Docno) -> Result<(), NoMemory>
    ensures written { OnOk result (out.new.items ≡ out.old.items ++ spelled_text docno.now) }
    ensures form { IsTrue (is_docno docno.now) }
{
    put_text(out, docno.as_bytes())
}

#[tactic(auto, using(crate::proofs::FieldTextLemmas::short_term))]
pub fn put_term(out: &mut Vec<u8>, term: &Term) -> Result<(), NoMemory>
    ensures written { OnOk result (out.new.items ≡ out.old.items ++ spelled_text term.now) }
    ensures form { IsTrue (is_term term.now) }
{
    put_text(out, term.as_bytes())
}

#[tactic(auto, using(crate::proofs::FieldTextLemmas::short_name))]
pub fn put_name(out: &mut Vec<u8>, name: &Name) -> Result<(), NoMemory>
    ensures written { OnOk result (out.new.items ≡ out.old.items ++ spelled_text name.now) }
    ensures form { IsTrue (is_name name.now) }
{
    put_text(out, name.as_bytes())
}
