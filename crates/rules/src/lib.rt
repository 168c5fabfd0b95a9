// The uses of a policy's statements by the role of a premise. How they are laid out is in `Listed`.
#![tactic(auto)]

ghost use Rattle.std.specs.Prelude.{◌≡◌, ◌-◌, ◌+◌, ◌<◌, ◌≤◌, get_or};
ghost use Rattle.rules.specs.Uses.{head_of, family_in, kind_in, other_in, source_in};
ghost use Rattle.rules.specs.Lists.{no_uses};

// A premise's family, the kind, what the other premise is, and the head.
#[derive(Clone, Copy)]
pub struct Use {
    pub family: u32,
    pub kind: u32,
    pub other: u32,
    pub head: u32,
}

// The uses: the codes of bodies and heads, the spans in which each head is valid, and the lists of bodies by family and of heads by body.
#[derive(Drop)]
pub struct UseLists {
    pub codes: [u32; 1024],
    pub valid: [u64; 512],
    pub lists: [u16; 3106],
}

impl UseLists {
    // Lists without uses.
    pub fn new() -> UseLists
        ensures { result ≡ no_uses }
    {
        UseLists {
            codes: [0; 1024],
            valid: [0; 512],
            lists: [0; 3106],
        }
    }

    // One more than the latest body of a family, or 0.
    pub fn first_body(&self, family: usize) -> usize
        requires { family < 1056 }
        ensures { result ≡ get_or self.now.lists (512 + family) 0 }
    {
        store::wide(self.lists[512 + family])
    }

    // One more than the body before body at - 1 in its family, or 0.
    pub fn next_body(&self, at: usize) -> usize
        requires { (1 ≤ at) × (at ≤ 512) }
        ensures { result ≡ get_or self.now.lists (at - 1) 0 }
    {
        store::wide(self.lists[at - 1])
    }

    // One more than the latest head of a body, or 0.
    pub fn first_head(&self, body: usize) -> usize
        requires { body < 512 }
        ensures { result ≡ get_or self.now.lists (2080 + body) 0 }
    {
        store::wide(self.lists[2080 + body])
    }

    // One more than the head before head at - 1 of its body, or 0.
    pub fn next_head(&self, at: usize) -> usize
        requires { (1 ≤ at) × (at ≤ 512) }
        ensures { result ≡ get_or self.now.lists (1568 + (at - 1)) 0 }
    {
        store::wide(self.lists[1567 + at])
    }

    // The role of a head.
    pub fn head_role(&self, i: usize) -> usize
        requires { i < 512 }
        ensures { result ≡ head_of self.now.codes i }
    {
        let code = whole(self.codes[512 + i]);
        (code % 1024) as usize
    }

    // The source of a head.
    pub fn source_of(&self, i: usize) -> u16
        requires { i < 512 }
        ensures { result ≡ source_in self.now.lists i }
    {
        self.lists[2592 + i]
    }
}

// A body's kind, what its other premise is, and its family, all by its code.
pub fn kind_of(code: u32) -> u32
    ensures { result ≡ kind_in code }
{
    code / 1024 % 8
}

pub fn other_of(code: u32) -> usize
    ensures { (result ≡ other_in code) × (result < 1024) }
{
    (code % 1024) as usize
}

pub fn family_of(code: u32) -> usize
    ensures { result ≡ family_in code }
{
    (code / 8192) as usize
}

// The number itself; a number of the list is below 2 ^ 32.
fn whole(x: u32) -> u32
    ensures { (result ≡ x) × (x < 4294967296) }
{
    x
}
