//! Laws of `print NAME`, `access USER`, `alm NAME` and `bind NAME`.

ghost use Rattle.cmd_tools.specs.ToolLaws.{ToolLaws};

/// Each of these commands first reads files, and makes a report of them. If it can, the command can
/// end; it ends with Done unless a call fails or memory runs out. Over the same files each call
/// puts a prefix of the text that a call puts which ends.
pub fn law_tools()
    ensures { ToolLaws }
{}
