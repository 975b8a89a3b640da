// Flash addresses by value: making one and taking one apart.
ghost use Rattle.std.specs.Prelude.{true, false, cond, MatchResult, [], ◌∷◌, ◌≡◌, ◌^◌};
ghost use Rattle.geometry.specs.Address.{are_elements, elements_of, fields_of, is_domain_id};
ghost use Rattle.geometry.specs.Address.{no_address, offset_bits, offset_of, word_of};
ghost use Rattle.geometry.specs.Answers.{address_questions, create_answer, created, create_questions, number_of};
ghost use Rattle.geometry.specs.Answers.{parse_answer, parsed, verdict_number, word_answer};
ghost use Rattle.geometry.specs.Questions.{ask, first_no};
ghost use Rattle.geometry.specs.Shape.{counted, within_limits};

use crate::shape::{Adus, Bounded, Config};

// The elements of an ADU offset (000, Figure 3.5): the numbers of a page, a die, a plane and an
// ADU.
#[derive(Clone, Copy, Debug, PartialEq, Eq)]
pub struct Elements {
    pub page: u64,
    pub die: u64,
    pub plane: u64,
    pub adu: u64,
}

// The fields of a flash address (000, Figure 3.4).
#[derive(Clone, Copy, Debug, PartialEq, Eq)]
pub struct FlashAddress {
    pub domain: u64,
    pub block: u64,
    pub offset: Adus,
}

// Why an address is refused.
#[derive(Clone, Copy, Debug, PartialEq, Eq)]
pub enum Refusal {
    // The configuration is outside the limits.
    Limits = 1,
    // The domain ID is not 1 to 16.
    DomainId = 4,
    // The block number, the offset or an element is out of range.
    Range = 6,
    // The lent buffer is too short.
    Output = 7,
}

impl Refusal {
    pub fn number(self) -> u64
        ensures { result ≡ number_of self }
    {
        self as u64
    }
}

// One question: a no is its reason.
pub(crate) fn ask(holds: bool, reason: Refusal) -> Result<(), Refusal>
    ensures { result ≡ cond holds (Ok tt) (Err reason) }
{
    if holds { Ok(()) } else { Err(reason) }
}

// Question 1: the configuration, if it is within the limits.
fn within(config: Config) -> Result<Bounded, Refusal>
    ensures { MatchResult result (λ b. b.config ≡ config) (λ r. (r ≡ Refusal.Limits) × (within_limits config ≡ false)) }
{
    Bounded::of(config).ok_or(Refusal::Limits)
}

// Questions 4 and 6: the first no.
#[tactic(auto, unfolding(crate::specs::Questions::first_no))]
fn first_no(domain: bool, range: bool) -> Result<(), Refusal>
    ensures { verdict_number result ≡ first_no (ask 4 domain ∷ ask 6 range ∷ []) }
{
    ask(domain, Refusal::DomainId)?;
    ask(range, Refusal::Range)
}

pub fn is_domain_id(domain: u64) -> bool
    ensures { result ≡ is_domain_id domain }
{
    (1..=16).contains(&domain)
}

impl Bounded {
    #[tactic(auto, unfolding(crate::specs::Address::are_elements))]
    fn are_elements(self, e: Elements) -> bool
        ensures { result ≡ are_elements self.config e }
    {
        let config = self.config;
        (e.page < config.pages)
            & (e.die < config.dies)
            & (e.plane < config.planes)
            & (e.adu < config.adus)
    }

    // The questions of making an address: question 1 is answered yes.
    #[tactic(auto, unfolding(crate::specs::Questions::first_no))]
    fn create_verdict(self, domain: u64, block: u64, e: Elements) -> Result<(), Refusal>
        ensures { verdict_number result ≡ first_no (create_questions self.config domain block e) }
    {
        let range = (block < self.config.blocks) & self.are_elements(e);
        first_no(is_domain_id(domain), range)
    }

    // The questions of an address: question 1 is answered yes.
    #[tactic(auto, unfolding(crate::specs::Questions::first_no))]
    fn address_verdict(self, a: FlashAddress) -> Result<(), Refusal>
        ensures { verdict_number result ≡ first_no (address_questions self.config a) }
    {
        let range = (a.block < self.config.blocks) & (a.offset.0 < self.block_adus().0);
        first_no(is_domain_id(a.domain), range)
    }

    // The width b of the offset in a word: C - 1 has as many binary digits.
    fn bits(self) -> u32
        ensures { result ≡ offset_bits self.config }
    {
        let c = self.block_adus();
        64 - u64::leading_zeros(c.0 - 1)
    }

    // 2^b, the offsets that a word has room for.
    fn span(self) -> u64
        ensures { result ≡ 2 ^ offset_bits self.config }
    {
        1u64 << self.bits()
    }

    #[tactic(auto, using(crate::proofs::Laws::Address::offsets), unfolding(crate::specs::Address::offset_of))]
    fn offset_of(self, e: Elements) -> Adus
        requires { are_elements self.config e ≡ true }
        ensures { result ≡ offset_of self.config e }
    {
        let config = self.config;
        Adus(((e.page * config.dies + e.die) * config.planes + e.plane) * config.adus + e.adu)
    }

    #[tactic(auto, using(crate::proofs::Laws::Shape::divisors), unfolding(crate::specs::Address::elements_of))]
    fn elements_of(self, o: Adus) -> Elements
        ensures { result ≡ elements_of self.config o }
    {
        let config = self.config;
        let plane = o.0 / config.adus;
        let die = plane / config.planes;
        Elements {
            page: die / config.dies,
            die: die % config.dies,
            plane: plane % config.planes,
            adu: o.0 % config.adus,
        }
    }

    fn word_of(self, a: FlashAddress) -> u64
        requires { first_no (address_questions self.config a) ≡ 0 }
        ensures { result ≡ word_of self.config a }
    {
        let o = a.offset;
        a.domain * 0x1_0000_0000_0000 + a.block * self.span() + o.0
    }

    #[tactic(auto, unfolding(crate::specs::Address::fields_of))]
    fn fields_of(self, word: u64) -> FlashAddress
        ensures { result ≡ fields_of self.config word }
    {
        let s = self.span();
        FlashAddress {
            domain: word / 0x1_0000_0000_0000,
            block: word % 0x1_0000_0000_0000 / s,
            offset: Adus(word % s),
        }
    }
}

// b, or 0 outside the limits.
pub fn offset_bits(config: Config) -> u64
    ensures { result ≡ counted config (offset_bits config) }
{
    Bounded::of(config).map_or(0, |b| b.bits() as u64)
}

// The fields of any word, whether or not it is an address; zeros outside the limits.
pub fn word_fields(config: Config, word: u64) -> FlashAddress
    ensures { result ≡ cond (within_limits config) (fields_of config word) no_address }
{
    let none = FlashAddress {
        domain: 0,
        block: 0,
        offset: Adus(0),
    };
    Bounded::of(config).map_or(none, |b| b.fields_of(word))
}

// The word of an address.
#[tactic(auto, using(crate::proofs::Laws::Answers::asked), unfolding(crate::specs::Answers::word_answer))]
pub fn flash_word(config: Config, a: FlashAddress) -> Result<u64, Refusal>
    ensures { created result ≡ word_answer config a }
{
    let bounded = within(config)?;
    bounded.address_verdict(a)?;
    Ok(bounded.word_of(a))
}

// The word of a domain, a block and elements.
#[tactic(auto, using(crate::proofs::Laws::Answers::asked), unfolding(crate::specs::Answers::create_answer))]
pub fn create_flash_address(
    config: Config,
    domain: u64,
    block: u64,
    e: Elements,
) -> Result<u64, Refusal>
    ensures { created result ≡ create_answer config domain block e }
{
    let bounded = within(config)?;
    bounded.create_verdict(domain, block, e)?;
    let offset = bounded.offset_of(e);
    Ok(bounded.word_of(FlashAddress {
        domain,
        block,
        offset,
    }))
}

// The address of a word.
#[tactic(auto, using(crate::proofs::Laws::Answers::asked), unfolding(crate::specs::Answers::parse_answer))]
pub fn parse_flash_address(config: Config, word: u64) -> Result<(FlashAddress, Elements), Refusal>
    ensures { parsed result ≡ parse_answer config word }
{
    let bounded = within(config)?;
    let a = bounded.fields_of(word);
    bounded.address_verdict(a)?;
    Ok((a, bounded.elements_of(a.offset)))
}
