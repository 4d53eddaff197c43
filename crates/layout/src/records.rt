// The records of an area: their sizes and field offsets, touching, and a read of each field.
ghost use Rattle.std.specs.Prelude.{◌≡◌, ◌+◌, is_ok, IfOk, IfErr};
ghost use Rattle.layout.specs.declared.refusal.Refusal.{Refusal};
ghost use Rattle.layout.specs.Layout.{data_size, Within, NodeIn, EntryIn, touch, node_ok, entry_ok, word_at};
ghost use Rattle.layout.specs.Layout.{namelen_field, prop_field, left_field, right_field, children_field, serial_field, long_offset_field};

use crate::refusal::Refusal;

// The first bytes of an area.
#[derive(Clone, Copy)]
pub struct Header {}

impl Header {
    pub const SIZE: usize = 128;

    pub const USED: usize = 0;

    pub const SERIAL: usize = 4;

    pub const MAGIC: usize = 8;

    pub const MAGIC_SIZE: usize = 4;

    pub const PROP_AREA_MAGIC: [u8; Header::MAGIC_SIZE] = *b"PROP";

    pub const VERSION: usize = 12;

    pub const PROP_AREA_VERSION: u32 = 0xfc6e_d0ab;

    pub const RESERVED: usize = 16;

    pub const AREA_MIN: usize = Header::SIZE;

    pub const AREA_MAX: usize = 131_072;

    // What formatting needs: the header, the root and the backup slot.
    pub const FORMAT_MIN: usize = Header::SIZE + Backup::END;
}

// The slot in which an update keeps the old value: behind the root node, as large as a value slot.
#[derive(Clone, Copy)]
pub struct Backup {}

impl Backup {
    pub const AT: usize = Node::SIZE;

    pub const SIZE: usize = Entry::VALUE_MAX;

    // Where the first object of a fresh area stands.
    pub const END: usize = Backup::AT + Backup::SIZE;
}

// A node that lies in an area, by its offset.
#[derive(Clone, Copy)]
pub struct Node<'a> {
    pub area: &'a [u8],
    pub at: usize,
    ghost inside: { NodeIn area.now at },
}

impl<'a> Node<'a> {
    // The root's offset: it stands first.
    pub const ROOT: usize = 0;

    pub const SIZE: usize = 20;

    pub const NAMELEN: usize = 0;

    pub const PROP: usize = 4;

    pub const LEFT: usize = 8;

    pub const RIGHT: usize = 12;

    pub const CHILDREN: usize = 16;

    // The node at an offset, touched: damage, unless it lies within the area, at a multiple of 4.
    #[tactic(auto, unfolding(crate::specs::Layout::touch))]
    pub fn touch(area: &'a [u8], at: usize) -> Result<Node<'a>, Refusal>
        ensures says { is_ok result ≡ node_ok area.now at }
        ensures there { IfOk result (λ node. (node.area ≡ area.entry) × (node.at ≡ at)) }
        ensures damage { IfErr result (λ why. why ≡ Refusal.Damaged) }
    {
        if !lies(area, at, Node::SIZE) {
            return Err(Refusal::Damaged);
        }
        Ok(Node { area, at })
    }

    // A read of one line for each field: with the field as a parameter the clause would not name it.
    pub fn namelen(self) -> u32
        ensures { result ≡ word_at self.entry.area.now self.entry.at namelen_field }
    {
        field(self.area, self.at, Node::NAMELEN)
    }

    pub fn prop(self) -> u32
        ensures { result ≡ word_at self.entry.area.now self.entry.at prop_field }
    {
        field(self.area, self.at, Node::PROP)
    }

    pub fn left(self) -> u32
        ensures { result ≡ word_at self.entry.area.now self.entry.at left_field }
    {
        field(self.area, self.at, Node::LEFT)
    }

    pub fn right(self) -> u32
        ensures { result ≡ word_at self.entry.area.now self.entry.at right_field }
    {
        field(self.area, self.at, Node::RIGHT)
    }

    pub fn children(self) -> u32
        ensures { result ≡ word_at self.entry.area.now self.entry.at children_field }
    {
        field(self.area, self.at, Node::CHILDREN)
    }
}

// An entry that lies in an area, by its offset.
#[derive(Clone, Copy)]
pub struct Entry<'a> {
    pub area: &'a [u8],
    pub at: usize,
    ghost inside: { EntryIn area.now at },
}

impl<'a> Entry<'a> {
    pub const SIZE: usize = 96;

    pub const SERIAL: usize = 0;

    pub const VALUE: usize = 4;

    pub const VALUE_MAX: usize = 92;

    pub const MESSAGE: usize = 4;

    pub const MESSAGE_SIZE: usize = 56;

    // How many bytes of it are not zero.
    pub const MESSAGE_LENGTH: u32 = 50;

    pub const LONG_OFFSET: usize = Entry::MESSAGE + Entry::MESSAGE_SIZE;

    // The entry at an offset, touched as a node is (a trait for the two would be longer than both): damage, unless it lies within the area, at a multiple of 4.
    #[tactic(auto, unfolding(crate::specs::Layout::touch))]
    pub fn touch(area: &'a [u8], at: usize) -> Result<Entry<'a>, Refusal>
        ensures says { is_ok result ≡ entry_ok area.now at }
        ensures there { IfOk result (λ entry. (entry.area ≡ area.entry) × (entry.at ≡ at)) }
        ensures damage { IfErr result (λ why. why ≡ Refusal.Damaged) }
    {
        if !lies(area, at, Entry::SIZE) {
            return Err(Refusal::Damaged);
        }
        Ok(Entry { area, at })
    }

    pub fn serial(self) -> u32
        ensures { result ≡ word_at self.entry.area.now self.entry.at serial_field }
    {
        field(self.area, self.at, Entry::SERIAL)
    }

    pub fn long_offset(self) -> u32
        ensures { result ≡ word_at self.entry.area.now self.entry.at long_offset_field }
    {
        field(self.area, self.at, Entry::LONG_OFFSET)
    }
}

// How many bytes stand behind the header.
pub fn data_size(area: &[u8]) -> usize
    ensures { result ≡ data_size area.now }
{
    area.len().saturating_sub(Header::SIZE)
}

// Whether an object of some size lies within the area, at a multiple of 4.
#[tactic(auto, unfolding(crate::specs::Layout::touch))]
fn lies(area: &[u8], at: usize, size: usize) -> bool
    ensures { result ≡ touch area.now size at }
{
    let room = data_size(area);
    if room < size {
        return false;
    }
    if room - size < at {
        return false;
    }
    at % 4 == 0
}

// The word at a field of the record at an offset.
fn field(area: &[u8], at: usize, offset: usize) -> u32
    requires { Within area.now (offset + 4) at }
    ensures { result ≡ word_at area.now at offset }
{
    words::word(area, Header::SIZE + at + offset)
}
