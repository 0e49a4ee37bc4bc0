// Identifiers and portion numbers: how they are spelt, when two are the same, and the hash of their bytes.
#![tactic(auto)]

ghost use Rattle.std.specs.Prelude.{◌≡◌, [], ◌∷◌, ◌<◌, ◌≤◌};
ghost use Rattle.names.specs.Names.{space_byte, is_digit, is_identifier, is_portion, same};
ghost use Rattle.names.specs.Asked.{spelling};
ghost use Rattle.names.specs.Hash.{hashes, hash_step, hash_from, bucket};

pub const SPACE: u8 = 32;

pub const LONGEST_IDENTIFIER: usize = 64;

const LONGEST_PORTION: usize = 16;

const HASHES: usize = 4_294_967_296;

pub fn is_digit(byte: u8) -> bool
    ensures { result ≡ is_digit byte }
{
    48 <= byte && byte <= 57
}

pub fn is_identifier(name: &[u8]) -> bool
    ensures { result ≡ is_identifier name.now }
{
    if LONGEST_IDENTIFIER < name.len() {
        return false;
    }
    let mut in_group = false;
    for &byte in name {
        if is_digit(byte) {
            in_group = true;
        } else {
            if byte != SPACE || !in_group {
                return false;
            }
            in_group = false;
        }
    }
    in_group
}

pub fn is_portion(name: &[u8]) -> bool
    ensures { result ≡ is_portion name.now }
{
    if name.is_empty() || LONGEST_PORTION < name.len() {
        return false;
    }
    for &byte in name {
        if !is_digit(byte) {
            return false;
        }
    }
    true
}

// A loop, which becomes part of its callers: `==` on slices would be a call of memcmp for each name.
pub fn is_same(a: &[u8], b: &[u8]) -> bool
    ensures { result ≡ same a.now b.now }
{
    if a.len() != b.len() {
        return false;
    }
    for (x, y) in a.iter().zip(b) {
        if x != y {
            return false;
        }
    }
    true
}

// A name that is looked for: the front alone, or, if there is a back, the front, one space and the back.
#[derive(Clone, Copy)]
pub struct Asked<'a> {
    pub front: &'a [u8],
    pub back: Option<&'a [u8]>,
}

// Whether a name is the one asked for, which is compared in its parts. Inline, as it is part of the loop over a chain.
#[inline(always)]
pub fn is_asked(asked: Asked, name: &[u8]) -> bool
    ensures { result ≡ same (spelling asked.entry) name.now }
{
    let size = asked.front.len();
    match asked.back {
        None => is_same(asked.front, name),
        Some(back) => {
            if name.len() != size + 1 + back.len() {
                return false;
            }
            if !is_same(asked.front, &name[..size]) || name[size] != SPACE {
                return false;
            }
            is_same(back, &name[size + 1..])
        }
    }
}

// The hash h after one byte more. It is made of shifts and sums, as not every machine that runs this multiplies.
fn hash_byte(h: usize, byte: u8) -> usize
    requires { h < hashes }
    ensures { (result ≡ hash_step h byte) × (result < hashes) }
{
    let sum = h + byte as usize;
    ((sum << 6) + sum + (sum >> 9)) % HASHES
}

// The hash h after these bytes.
pub fn hash_over(bytes: &[u8], h: usize) -> usize
    requires { h < hashes }
    ensures { (result ≡ hash_from h bytes.now) × (result < hashes) }
{
    let mut r = h;
    for &byte in bytes {
        r = hash_byte(r, byte);
    }
    r
}

// The hash h after one space: what stands between the two parts of a joined name.
pub fn hash_space(h: usize) -> usize
    requires { h < hashes }
    ensures { (result ≡ hash_from h (space_byte ∷ [])) × (result < hashes) }
{
    hash_byte(h, SPACE)
}

// The bucket that the hash h has among so many: its low bits, where their number is a power of two.
pub fn bucket_of(buckets: usize, h: usize) -> usize
    requires { (0 < buckets) × (buckets ≤ hashes) × (h < hashes) }
    ensures { (result ≡ bucket buckets h) × (result < buckets) }
{
    h & (buckets - 1)
}
