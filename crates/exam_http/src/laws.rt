//! What the definitions mean: functions that do nothing, and whose clauses are laws.
ghost use Rattle.std.specs.Prelude.{◌≡◌, ◌⊎◌, ◌++◌, ℕ, List, Option, Some, None, Result, Ok, Err, codes, true, false};
ghost use Rattle.history_model.specs.declared.place.Place.TheVariants.{Waiting};
ghost use Rattle.history_model.specs.declared.request.Reply.TheVariants.{At};
ghost use Rattle.exam_http.specs.declared.asked.Asked.{Asked};
ghost use Rattle.exam_http.specs.declared.asked.Asked.TheVariants as ask;
ghost use Rattle.exam_http.specs.declared.message_fault.MessageFault.{MessageFault};
ghost use Rattle.exam_http.specs.declared.message_fault.MessageFault.TheVariants.{Unauthorized};
ghost use Rattle.exam_http.specs.declared.route.Route.{Route};
ghost use Rattle.exam_http.specs.Asks.{Asks};
ghost use Rattle.exam_http.specs.Tokens.{bears};
ghost use Rattle.exam_http.specs.Paths.{Names};
ghost use Rattle.exam_http.specs.Replies.{reply_text};
ghost use Rattle.exam_http.specs.Serving.{Serves};
ghost use Rattle.wire_http.specs.Responses.{line_end};
ghost use Rattle.wire_http.specs.Messages.{Messages};
ghost use Rattle.wire_http.specs.declared.message.Message.{Message};

use crate::Handler;

/// A path names one route, or none.
pub fn one_route()
    // Promise: A path names one route or none; what was answered are the messages of the bytes, one
    // after another; the response of a first item is the stated text
    // - of `laws::one_route`, `laws::messages_are_served`, `laws::response_of_a_first_item`
    ensures { (path : List ℕ) (o q : Option Route) → Names path o → Names path q → o ≡ q }
{}

/// What a connection has answered are the messages of its bytes, one after another.
pub fn messages_are_served<H: Handler>()
    ensures { (token : Option (List ℕ)) (start new : H) (bytes texts rest : List ℕ)
        → Serves token H.does H.probes H.idles start bytes texts rest new
        → (messages : List Message) × Messages bytes messages rest }
{}

/// A message that does not bear the token asks nothing, but for the health.
pub fn nothing_without_the_token()
    ensures { (token : List ℕ) (m : Message) (asked : Result Asked MessageFault)
        → bears token m.authorization.items ≡ false → Asks (Some token) m asked
        → (asked ≡ Err Unauthorized) ⊎ (asked ≡ Ok ask.Health) }
{}

/// A server without a token refuses no message for the lack of one.
pub fn without_a_token_all_may_ask()
    ensures { (m : Message) → Asks None m (Err Unauthorized) → ⊥ }
{}

/// The response to the message that starts session 0, which is served item 2.
pub fn response_of_a_first_item()
    ensures { reply_text (At 0 (Waiting 0 2 true) true) false
        ≡ codes "HTTP/1.1 201 Created" ++ line_end
        ++ codes "Content-Type: application/json" ++ line_end
        ++ codes "Content-Length: 63" ++ line_end ++ line_end
        ++ codes "{\"item\":2,\"proved\":true,\"session\":0,\"state\":\"waiting\",\"step\":0}" }
{}
