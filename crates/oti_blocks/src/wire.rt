//! The transmission information in a header: EXT_FTI of FEC Encoding ID 5 (RFC 5510, section 4.2.2).

ghost use Rattle.std.specs.Prelude.{◌≡◌, IfOk, Ok, length};
ghost use Rattle.wire_bytes.specs.FirstFault.{unless_fault};
ghost use Rattle.oti_blocks.specs.Partition.{ObjectInformation, IsSound};
ghost use Rattle.oti_blocks.specs.Faults.{checked, fti_fault};
ghost use Rattle.oti_blocks.specs.Wire.{fti, fti_content, stated};

use crate::fault::OtiFault;
use crate::information::Oti;
use byteorder::{BigEndian, ByteOrder};

/// The type (HET) of the extension EXT_FTI.
pub const FTI_TYPE: u8 = 64;

/// Its length (HEL) in words of 32 bits, which counts the type and itself.
const FTI_WORDS: u8 = 3;

/// The extension's type and length, which stand before its content.
pub const FTI_START: [u8; 2] = [FTI_TYPE, FTI_WORDS];

/// Reads the content of the extension, what stands behind its type and its length:
///
/// ```text
/// +-------------------------------+
/// | object length, 48 bits ..     |
/// |               +---------------+
/// | ..            | symbol, 16    |
/// +-------+-------+---------------+
/// | max_block, 8  | max_n, 8      |
/// +---------------+---------------+
/// ```
///
/// Fails with `FtiLength` where the content hasn't ten bytes, and else as `Oti::new` does.
pub fn read_fti(content: &[u8]) -> Result<Oti, OtiFault>
    ensures exact { result ≡ unless_fault (fti_fault content.now) (stated content.now) }
    ensures found { IfOk result (λ o. content.now ≡ fti_content o) }
    ensures only { (o : ObjectInformation) → IsSound o → content.now ≡ fti_content o → result ≡ Ok o }
{
    if content.len() != 10 {
        return Err(OtiFault::FtiLength {
            length: content.len() as u64,
        });
    }
    read_values(content)
}

fn read_values(content: &[u8]) -> Result<Oti, OtiFault>
    requires { length content.now ≡ 10 }
    ensures { result ≡ checked (stated content.now) }
{
    let length = BigEndian::read_u48(content);
    let symbol = BigEndian::read_u16(&content[6..]);
    Oti::new(length, symbol, content[8], content[9])
}

impl Oti {
    /// The whole extension, its type and its length first.
    pub fn fti(&self) -> [u8; 12]
        ensures { result ≡ fti self.now }
    {
        let mut out = [0u8; 12];
        out[0] = FTI_TYPE;
        out[1] = FTI_WORDS;
        BigEndian::write_uint(&mut out[2..], self.length, 6);
        BigEndian::write_u16(&mut out[8..], self.symbol);
        out[10] = self.max_block;
        out[11] = self.max_n;
        out
    }
}
