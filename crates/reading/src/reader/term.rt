// Reads terms, whose nodes go into a draft.
ghost use Rattle.std.specs.Prelude.{◌≡◌, ◌+◌, MatchResult};
ghost use Rattle.reading.specs.Languages.{Body, Field, Fields, Sign, Inside};
ghost use Rattle.reading.specs.Passing.{Any, NoDigit, Fault};
ghost use Rattle.reading.specs.Terms.{FieldTaken, FieldsTaken, SignTaken, TermTaken, PairTaken};

use crate::reader::Reader;
use algebra::limits::LONGEST;
use algebra::node::Node;
use algebra::numbers::Numbers;
use grammar::draft::Draft;
use grammar::item::Item;
use refusals::refusal::Refusal;

impl<'a> Reader<'a> {
    // A number with the comma after it.
    #[inline(always)]
    fn field(&mut self) -> Result<u32, Refusal>
        ensures { MatchResult result (λ n. FieldTaken self.old self.new n) (λ e. Fault Field Any self.old e) }
    {
        let number = self.number(u32::MAX)?;
        self.mark(b",")?;
        Ok(number.value)
    }

    // The four numbers of a primitive. It stands apart from `term`, which calls itself and then takes less stack.
    #[inline(never)]
    fn primitive(&mut self) -> Result<Numbers, Refusal>
        ensures { MatchResult result (λ p. FieldsTaken self.old self.new p) (λ e. Fault Fields NoDigit self.old e) }
    {
        let first = self.field()?;
        let second = self.field()?;
        let third = self.field()?;
        let fourth = self.number(u32::MAX)?;
        Ok(Numbers {
            first,
            second,
            third,
            fourth: fourth.value,
        })
    }

    // `+` or `|`, as the node of a pair.
    fn operator(&mut self) -> Result<Node<Numbers>, Refusal>
        ensures { MatchResult result (λ n. SignTaken self.old self.new n) (λ e. Fault Sign Any self.old e) }
    {
        let mark = self.mark(b"+|")?.lexeme();
        if mark.bytes[0] == b'|' {
            Ok(Node::Parallel)
        } else {
            Ok(Node::Sequence)
        }
    }

    // A rest, a primitive or a pair.
    #[cycle(pair_term)]
    pub fn term(&mut self, draft: &mut Draft) -> Result<(), Refusal>
        ensures { MatchResult result (λ _. TermTaken self.old self.new draft.old draft.new) (λ e. Fault Body NoDigit self.old e) }
    {
        let mark = self.mark(b"(rp")?.lexeme();
        let offset = mark.offset;
        match mark.bytes[0] {
            b'(' => self.pair(offset, draft),
            b'r' => {
                let rest = self.number(LONGEST)?;
                draft.push(Item {
                    node: Node::Rest(rest.value),
                    offset,
                });
                Ok(())
            }
            _ => {
                let numbers = self.primitive()?;
                draft.push(Item {
                    node: Node::Primitive(numbers),
                    offset,
                });
                Ok(())
            }
        }
    }

    // What follows the parenthesis of a pair, which stands at an offset.
    #[cycle(pair_term)]
    fn pair(&mut self, offset: u32, draft: &mut Draft) -> Result<(), Refusal>
        requires { self.old.at ≡ offset + 1 }
        ensures { MatchResult result (λ _. PairTaken offset self.old self.new draft.old draft.new) (λ e. Fault Inside Any self.old e) }
    {
        let at = draft.len();
        draft.push(Item {
            node: Node::Sequence,
            offset,
        });
        self.term(draft)?;
        let node = self.operator()?;
        draft.set_node(at, node);
        self.term(draft)?;
        self.mark(b")")?;
        Ok(())
    }
}
