//! The script.

ghost use Rattle.std.specs.Prelude.{◌≡◌, IfOk};
ghost use Rattle.bank_maker.specs.Scripts.{request_at, state_behind, script_text};
ghost use Rattle.replay_cli.specs.Scripts.{request_line};

use crate::act::Act;
use crate::draws::Draws;
use exam_edge::Memory;
use history_model::Request;
use replay_cli::request_line;
use std::alloc::Global;

/// What is asked at an act. An answer takes a draw for its response.
fn request_at(draws: &mut Draws, act: Act) -> Request
    ensures request { result ≡ request_at draws.old.state act }
    ensures state { draws.new.state ≡ state_behind draws.old.state act }
{
    match act {
        Act::Begins(session) => Request::Begin(u64::from(session) + 1),
        Act::Answers { session, step } => {
            let response = (draws.draw() % 2) as u8;
            Request::Answer {
                session,
                step,
                response,
                booking: None,
            }
        }
        Act::Closes(session) => Request::Close {
            session,
            booking: None,
        },
    }
}

/// The script of acts.
pub fn script_text(alloc: Global, draws: &mut Draws, acts: &[Act]) -> Result<Vec<u8>, Memory>
    ensures { IfOk result (λ text. text.items ≡ script_text draws.old.state acts.now) }
{
    let mut out = Vec::new(alloc);
    for act in acts {
        let request = request_at(draws, *act);
        out.extend_from_slice(&request_line(alloc, &request)?)?;
        out.push(b'\n')?;
    }
    Ok(out)
}
