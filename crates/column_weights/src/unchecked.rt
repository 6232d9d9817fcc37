// The caller knows the record to be whole.
ghost use Rattle.std.specs.Prelude.{◌≡◌, ◌<◌, map, IsTrue, nat_lt};
ghost use Rattle.std.specs.List.{list_all};
ghost use Rattle.air.specs.ChallengeId.{COUNT};
ghost use Rattle.challenges.specs.Derived.{challenge_at};
ghost use Rattle.column_entries.specs.Columns.{instruction, op_stack, ram, jump_stack, hash_input, hash_digest, sponge, u32, weights};

use air::{ChallengeId, RECORD_WORDS};
use field::XFieldElement;

pub fn challenge(challenges: &[u64; RECORD_WORDS], id: ChallengeId) -> XFieldElement
    requires { id.0 < COUNT }
    ensures { result ≡ challenge_at challenges.now id.0 }
{
    field::unchecked::element_at(challenges, id.0 * 3)
}

// The challenges with these ids.
fn weights<const N: usize>(
    challenges: &[u64; RECORD_WORDS],
    ids: [ChallengeId; N],
) -> [XFieldElement; N]
    requires { IsTrue (list_all (λ id. nat_lt id.0 COUNT) ids) }
    ensures { result ≡ map (λ id. challenge_at challenges.now id.0) ids.entry }
{
    let mut weights = [XFieldElement::ZERO; N];
    for i in 0..N {
        weights[i] = challenge(challenges, ids[i]);
    }
    weights
}

pub fn instruction_weights(challenges: &[u64; RECORD_WORDS]) -> [XFieldElement; 3]
    ensures { result ≡ weights instruction challenges.now }
{
    weights(
        challenges,
        [
            ChallengeId::PROGRAM_ADDRESS_WEIGHT,
            ChallengeId::PROGRAM_INSTRUCTION_WEIGHT,
            ChallengeId::PROGRAM_NEXT_INSTRUCTION_WEIGHT,
        ],
    )
}

pub fn op_stack_weights(challenges: &[u64; RECORD_WORDS]) -> [XFieldElement; 4]
    ensures { result ≡ weights op_stack challenges.now }
{
    weights(
        challenges,
        [
            ChallengeId::OP_STACK_CLK_WEIGHT,
            ChallengeId::OP_STACK_IB1_WEIGHT,
            ChallengeId::OP_STACK_POINTER_WEIGHT,
            ChallengeId::OP_STACK_FIRST_UNDERFLOW_ELEMENT_WEIGHT,
        ],
    )
}

pub fn ram_weights(challenges: &[u64; RECORD_WORDS]) -> [XFieldElement; 4]
    ensures { result ≡ weights ram challenges.now }
{
    weights(
        challenges,
        [
            ChallengeId::RAM_CLK_WEIGHT,
            ChallengeId::RAM_POINTER_WEIGHT,
            ChallengeId::RAM_VALUE_WEIGHT,
            ChallengeId::RAM_INSTRUCTION_TYPE_WEIGHT,
        ],
    )
}

pub fn jump_stack_weights(challenges: &[u64; RECORD_WORDS]) -> [XFieldElement; 5]
    ensures { result ≡ weights jump_stack challenges.now }
{
    weights(
        challenges,
        [
            ChallengeId::JUMP_STACK_CLK_WEIGHT,
            ChallengeId::JUMP_STACK_CI_WEIGHT,
            ChallengeId::JUMP_STACK_JSP_WEIGHT,
            ChallengeId::JUMP_STACK_JSO_WEIGHT,
            ChallengeId::JUMP_STACK_JSD_WEIGHT,
        ],
    )
}

pub fn hash_input_weights(challenges: &[u64; RECORD_WORDS]) -> [XFieldElement; 10]
    ensures { result ≡ weights hash_input challenges.now }
{
    weights(
        challenges,
        [
            ChallengeId::STACK_WEIGHT0,
            ChallengeId::STACK_WEIGHT1,
            ChallengeId::STACK_WEIGHT2,
            ChallengeId::STACK_WEIGHT3,
            ChallengeId::STACK_WEIGHT4,
            ChallengeId::STACK_WEIGHT5,
            ChallengeId::STACK_WEIGHT6,
            ChallengeId::STACK_WEIGHT7,
            ChallengeId::STACK_WEIGHT8,
            ChallengeId::STACK_WEIGHT9,
        ],
    )
}

pub fn hash_digest_weights(challenges: &[u64; RECORD_WORDS]) -> [XFieldElement; 5]
    ensures { result ≡ weights hash_digest challenges.now }
{
    weights(
        challenges,
        [
            ChallengeId::STACK_WEIGHT0,
            ChallengeId::STACK_WEIGHT1,
            ChallengeId::STACK_WEIGHT2,
            ChallengeId::STACK_WEIGHT3,
            ChallengeId::STACK_WEIGHT4,
        ],
    )
}

pub fn sponge_weights(challenges: &[u64; RECORD_WORDS]) -> [XFieldElement; 11]
    ensures { result ≡ weights sponge challenges.now }
{
    weights(
        challenges,
        [
            ChallengeId::HASH_CI_WEIGHT,
            ChallengeId::STACK_WEIGHT0,
            ChallengeId::STACK_WEIGHT1,
            ChallengeId::STACK_WEIGHT2,
            ChallengeId::STACK_WEIGHT3,
            ChallengeId::STACK_WEIGHT4,
            ChallengeId::STACK_WEIGHT5,
            ChallengeId::STACK_WEIGHT6,
            ChallengeId::STACK_WEIGHT7,
            ChallengeId::STACK_WEIGHT8,
            ChallengeId::STACK_WEIGHT9,
        ],
    )
}

pub fn u32_weights(challenges: &[u64; RECORD_WORDS]) -> [XFieldElement; 4]
    ensures { result ≡ weights u32 challenges.now }
{
    weights(
        challenges,
        [
            ChallengeId::U32_LHS_WEIGHT,
            ChallengeId::U32_RHS_WEIGHT,
            ChallengeId::U32_CI_WEIGHT,
            ChallengeId::U32_RESULT_WEIGHT,
        ],
    )
}
