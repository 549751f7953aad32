// Document 01's types: the parameters, one type for each kind of number, the reply and the answer; and its number rules as code.
#![tactic(auto)]

ghost use Rattle.std.specs.Prelude.{◌≡◌, true, ◌<◌};
ghost use Rattle.rules.specs.Parameters.{allowed};
ghost use Rattle.rules.specs.Numbers.{cluster_of, sector_of, region_of, vblock_of, place_of, segment_of};
ghost use Rattle.rules.specs.Replies.{number_of};

// The nine parameters of a board: s bytes of a sector, α sectors in a cluster, β frames in a segment, d segments in a block,
// μ regions, γ virtual blocks in a region, C clusters, N physical blocks, E rated erases of a block.
#[derive(Clone, Copy)]
pub struct Params {
    pub s: usize,
    pub alpha: usize,
    pub beta: usize,
    pub d: usize,
    pub mu: usize,
    pub gamma: usize,
    pub C: usize,
    pub N: usize,
    pub E: usize,
}

// 65,535 means none in CT, BT and FST.
pub const NONE: usize = 65535;

// What a search gives that finds nothing: each is over numbers below it.
pub const NOT_FOUND: usize = 65535;

// A page is s data bytes and then 16 spare bytes.
pub const SPARE_BYTES: usize = 16;

// The largest stamp of 32 bits: a region whose last stamp it is has none left.
pub const LAST_STAMP: u32 = 4294967295;

// BST, a byte per physical block: 0 free.
pub const FREE: u8 = 0;

// BST: 1 used.
pub const USED: u8 = 1;

// BST: 2 reserved.
pub const RESERVED: u8 = 2;

// A cluster number: an index of CT.
#[derive(Clone, Copy, PartialEq, Eq)]
pub struct Cluster(pub usize);

// A segment number, counted within its region: what CT and FST hold.
#[derive(Clone, Copy, PartialEq, Eq)]
pub struct Segment(pub usize);

// A virtual block number, counted within its region: with the region, an index of BT.
#[derive(Clone, Copy, PartialEq, Eq)]
pub struct VBlock(pub usize);

// A physical block number: what BT holds, an index of BST and of the wear.
#[derive(Clone, Copy, PartialEq, Eq)]
pub struct PBlock(pub usize);

// What the spare bytes of a frame's pages say beside the place of each: the cluster, the stamp, and the virtual block.
#[derive(Clone, Copy)]
pub struct Label {
    pub cluster: Cluster,
    pub stamp: u32,
    pub vblock: u8,
}

// Why a call is refused, or that it is accepted. `number_of` gives the number of each: document 01's, and 8, 9 and 10, which are document 02's.
#[derive(Clone, Copy, PartialEq, Eq)]
pub enum Reply {
    Accepted,
    BadParameter,
    WrongLength,
    BadCount,
    BadAddress,
    WrongData,
    TooFewBlocks,
    NotOrderly,
    TooFewAnswers,
    NoStampLeft,
    NoBlockLeft,
}

// One record that holds the reply, both counts of document 01, and T-08's third: how many spare areas the search for the cluster's valid frame looks at.
#[derive(Clone, Copy)]
pub struct Answer {
    pub reply: Reply,
    pub programs: u32,
    pub erases: u32,
    pub looks: u32,
}

// One write of a queue: its LBA, its count of sectors, and where its first byte stands in the data part that all items share.
#[derive(Clone, Copy)]
pub struct Item {
    pub lba: u32,
    pub count: u32,
    pub first: u32,
}

// The chip and the tables where all of them are lent to be read.
#[derive(Clone, Copy)]
pub struct Seen<'a> {
    pub chip: &'a [u8],
    pub ct: &'a [u16],
    pub bt: &'a [u16],
    pub fst: &'a [u16],
    pub bst: &'a [u8],
    pub wear: &'a [u32],
    pub marks: &'a [u64],
    pub stamps: &'a [u32],
}

// The number that document 01 gives a reply.
impl From<Reply> for u32 {
    ghost from_gives = { λ r n. n ≡ number_of r };

    fn from(r: Reply) -> u32
        ensures { result ≡ number_of r }
    {
        match r {
            Reply::Accepted => 0,
            Reply::BadParameter => 1,
            Reply::WrongLength => 2,
            Reply::BadCount => 3,
            Reply::BadAddress => 4,
            Reply::WrongData => 5,
            Reply::TooFewBlocks => 6,
            Reply::NotOrderly => 7,
            Reply::TooFewAnswers => 8,
            Reply::NoStampLeft => 9,
            Reply::NoBlockLeft => 10,
        }
    }
}

// The cluster of an LBA.
pub fn cluster_of(p: Params, lba: usize) -> Cluster
    requires { 0 < p.alpha }
    ensures { result.0 ≡ cluster_of p lba }
{
    Cluster(lba / p.alpha)
}

// The place of an LBA's sector in its cluster.
pub fn sector_of(p: Params, lba: usize) -> usize
    requires { 0 < p.alpha }
    ensures { result ≡ sector_of p lba }
{
    lba % p.alpha
}

// The region of a cluster. In 32 bits a division has no branch that asks how wide its numbers are.
pub fn region_of(p: Params, c: Cluster) -> usize
    requires p_value { allowed p ≡ true }
    requires c_lt_c { c.0 < p.C }
    ensures { result ≡ region_of p c.0 }
{
    (c.0 as u32 % p.mu as u32) as usize
}

// The virtual block of a segment, in the same way.
pub fn vblock_of(p: Params, sg: Segment) -> VBlock
    requires p_value { allowed p ≡ true }
    requires sg_bound { sg.0 < 65536 }
    ensures { result.0 ≡ vblock_of p sg.0 }
{
    VBlock((sg.0 as u32 / p.d as u32) as usize)
}

// The place of a segment in its virtual block, in the same way.
pub fn place_of(p: Params, sg: Segment) -> usize
    requires p_value { allowed p ≡ true }
    requires sg_bound { sg.0 < 65536 }
    ensures { result ≡ place_of p sg.0 }
{
    (sg.0 as u32 % p.d as u32) as usize
}

// The segment of frame f of a virtual block.
pub fn segment_of(p: Params, v: VBlock, f: usize) -> Segment
    requires p_value { allowed p ≡ true }
    requires v_lt_gamma { v.0 < p.gamma }
    requires f_bound { f < 256 }
    ensures { result.0 ≡ segment_of p v.0 f }
{
    Segment(v.0 * p.d + f / p.beta)
}
