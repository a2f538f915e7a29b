//! A list of acts with the answers that the rules give.
use engine::act::{Act, Answer};
use engine::call::Call;
use engine::run::run;
use engine::tally::Tally;
use maps::map_of;
use refusals::Refusal;
use regions::Regions;
use std::test::Fail;

// Calls of these acts, each with a buffer of these bytes.
fn calls(rt: &HostRuntime, acts: &[Act], bytes: &[u8]) -> Result<Vec<Call>, Fail> {
    let mut calls = Vec::new(rt.alloc());
    for act in acts.iter() {
        let buffer = bytes.to_vec(rt.alloc())?;
        calls
            .push(Call::new(*act, buffer))
            .map_err(|_| Fail::new("no memory"))?;
    }
    Ok(calls)
}

// Of the path of three regions, whose sets are 0, 1, 2, 3, 4, 6 and 7, the set 3 is saved. Past the end of a
// second census it is opened again, under its own job: the tally begins anew, and the list goes on from there.
#[test]
fn saved_and_resumed(rt: HostRuntime) -> Result<(), Fail> {
    let map = map_of(3, &[(0, 1), (1, 2)])?;
    let acts = [Act::Next, Act::Next, Act::Next, Act::Save(7)];
    let mut first = calls(&rt, &acts, &[0xee; 512])?;
    let _census = run(Regions::new(&map), first.as_mut_slice());
    let saved = first.pop().ok_or("nothing saved")?;
    assert_eq!(rt; saved.answer, Ok(Answer::Done));
    let table = [
        (Act::Next, Ok(Answer::Rank(1))),
        (Act::Next, Ok(Answer::Rank(1))),
        (Act::Next, Ok(Answer::Rank(2))),
        (Act::Next, Ok(Answer::Rank(1))),
        (Act::Next, Ok(Answer::Rank(2))),
        (Act::Next, Ok(Answer::Rank(3))),
        (Act::Next, Ok(Answer::End)),
        (Act::Next, Err(Refusal::PastEnd)),
        (Act::Resume(8), Err(Refusal::JobDiffers)),
        (Act::Resume(7), Ok(Answer::Done)),
        (Act::Read, Ok(Answer::Done)),
        (Act::Next, Ok(Answer::Rank(1))),
    ];
    let mut second = calls(&rt, &table.map(|(act, _)| act), saved.bytes.as_slice())?;
    let _census = run(Regions::new(&map), second.as_mut_slice());
    for (call, (_, answer)) in second.iter().zip(table) {
        assert_eq!(rt; call.answer, answer);
    }
    let last = second.pop().ok_or("nothing resumed")?;
    let read = second.pop().ok_or("nothing read")?;
    assert_eq!(rt;
        read.tally,
        Tally {
            objects: 1,
            steps: 0
        }
    );
    assert_eq!(rt; last.tally.objects, 2);
    assert!(rt; read.bytes.as_slice().starts_with(&[3, 0, 0, 0, 0, 0, 0, 0]));
    Ok(())
}
