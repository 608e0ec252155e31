ghost use Rattle.std.specs.Prelude.{◌≡◌, ◌≤◌, ◌<◌, ◌^◌, ◌↔◌, IsNone, Some, take, drop};
ghost use Rattle.std.specs.Int.{w16, w64, to_be_bytes};
ghost use Rattle.lw_stamp.specs.StampBytes.{counter_in};
ghost use Rattle.lw_stamp.specs.inner.StampBytes.{node_in};

use hex::FromHex;

/// The stamp of an operation: the number that a node's clock gave it, and that node's number.
///
/// Stamps are ordered by counter, then node. The counter is from 1 to 2^48 - 1.
#[derive(Clone, Copy, Debug, PartialEq, Eq, PartialOrd, Ord)]
pub struct Stamp {
    pub counter: u64,
    pub node: u16,
    pub ghost in_range: { (1 ≤ counter) × (counter < 2 ^ 48) × (node < 2 ^ 16) },
}

impl Stamp {
    ghost use Rattle.lw_stamp.specs.Stamp.{stamp_bytes, id_of};

    /// The token: six bytes of counter and two of node, big-endian.
    pub fn to_bytes(&self) -> [u8; 8]
        ensures { result ≡ stamp_bytes self.now }
    {
        let [_, _, c0, c1, c2, c3, c4, c5] = self.counter.to_be_bytes();
        let [n0, n1] = self.node.to_be_bytes();
        [c0, c1, c2, c3, c4, c5, n0, n1]
    }

    /// The stamp of a token. There is none where the counter is 0.
    pub fn from_bytes(bytes: [u8; 8]) -> Option<Stamp>
        ensures some { (s : Stamp) → (result ≡ Some s) ↔ (stamp_bytes s ≡ bytes) }
        ensures none { IsNone result ↔ (counter_in bytes ≡ 0) }
    {
        let counter = counter_of(&bytes);
        if counter == 0 {
            return None;
        }
        let node = node_of(&bytes);
        Some(Stamp { counter, node })
    }

    /// The identifier: the token in lower-case hex.
    pub fn id_text(&self) -> [u8; 16]
        ensures { result ≡ id_of self.now }
    {
        let mut text = [0; 16];
        let _written = hex::encode_to_slice(self.to_bytes(), &mut text);
        text
    }

    /// The stamp of an identifier. There is none for another length, for an upper-case or any other
    /// character, or for a counter of 0.
    pub fn read_id(text: &[u8]) -> Option<Stamp>
        ensures { (s : Stamp) → (result ≡ Some s) ↔ (text.now ≡ id_of s) }
    {
        let stamp = Stamp::from_bytes(<[u8; 8]>::from_hex(text).ok()?)?;
        if stamp.id_text().as_slice() == text {
            Some(stamp)
        } else {
            None
        }
    }
}

fn counter_of(bytes: &[u8; 8]) -> u64
    ensures value { result ≡ counter_in bytes.now }
    ensures in_range { result < 2 ^ 48 }
    ensures same { drop 2 (to_be_bytes w64 result) ≡ take 6 bytes.now }
{
    let [c0, c1, c2, c3, c4, c5, _, _] = *bytes;
    u64::from_be_bytes([0, 0, c0, c1, c2, c3, c4, c5])
}

fn node_of(bytes: &[u8; 8]) -> u16
    ensures value { result ≡ node_in bytes.now }
    ensures same { to_be_bytes w16 result ≡ drop 6 bytes.now }
{
    let [_, _, _, _, _, _, n0, n1] = *bytes;
    u16::from_be_bytes([n0, n1])
}
