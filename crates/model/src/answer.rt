// What a command answers: its outcome, or why it is refused.
ghost use Rattle.std.specs.Prelude.{◌≡◌};
ghost use Rattle.model.specs.Answers.{number_of};

// A reason for each of document 01's questions, in their order.
#[derive(Clone, Copy, Debug, PartialEq, Eq)]
pub enum Refusal {
    // The configuration is outside the limits.
    Limits = 1,
    // The table is not sound.
    Unsound = 2,
    // The lent store has not S × C entries.
    Store = 3,
    // The domain ID is not 1 to 16.
    DomainId = 4,
    // The domain does not exist, or exists where it is to be created.
    Existence = 5,
    // Another argument is out of range.
    Range = 6,
    // The lent output is too short.
    Output = 7,
    // An LBA passes 2^40 - 1, or a user address is all ones.
    UserAddress = 8,
    // The block is not the domain's, or the address is another domain's.
    Holder = 9,
    // The block's state does not allow the command.
    BlockState = 10,
    // As many blocks are open as the domain may have.
    OpenLimit = 11,
    // The domain's erase serial numbers are used up.
    Serials = 12,
    // The domain would hold more than its quota.
    Quota = 13,
    // A guarantee would no longer be covered.
    Coverage = 14,
    // The write does not fit the block, or the read passes what is written.
    Extent = 15,
    // A stored user address is not the expected one.
    Mismatch = 16,
}

impl Refusal {
    pub fn number(self) -> u64
        ensures { result ≡ number_of self }
    {
        self as u64
    }
}

// What a host is told, under document 01's three names: `outcome_of` and the claim about whole lists of commands speak of
// these. Inside, a refusal is the Err of a Result.
#[derive(Clone, Copy, Debug, PartialEq, Eq)]
pub enum Answer {
    // success
    Done,
    // success with a block number: Erase, Close and Free
    Block(u64),
    Refused(Refusal),
}
