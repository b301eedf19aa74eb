//! Configurations, and the first key that is refused.

use crate::shown::{config_of, config_shown};
use std::test::Fail;

// The key, and a configuration; `;` stands for a line feed, and `+` for a node, an out and a task behind it.
const REFUSED: &str = "\
Toml | =
Toml | rotation = 255 rotation = 256
Toml | rotation = 1;rotation = 2
Rotation | rotation = 255
Rotation | +rotation = 255
Rotation | +rotation = 1073741825
Rotation | +rotation = -256
Rotation | +rotation = 256.0
Rotation | +rotation = '256'
Window | +window = 4095
Window | +window = 268435457
Window | +window = []
Node |
Node | node = []
Node | node = {files=['a']}
Node | node = [{files=[]}]
Node | node = [{files=['']}]
Node | node = [{files=[1]}]
Node | node = [{files='a'}]
Node | node = [{file=['a']}]
Node | node = [{files=['a'],x=1}]
Node | node = [{}]
Node | node = ['a']
Out | node=[{files=['a']}]
Out | node=[{files=['a']}];out=[]
Out | node=[{files=['a']}];out={folder='o'}
Out | node=[{files=['a']}];out=[{}]
Out | node=[{files=['a']}];out=[{folder=''}]
Out | node=[{files=['a']}];out=[{folder=1}]
Out | node=[{files=['a']}];out=[{folder='o',listen=''}]
Out | node=[{files=['a']}];out=[{folder='o',x=1}]
Out | node=[{files=['a']}];out=[{folder='o'},{folder='o'}]
Out | node=[{files=['a']}];out=[{folder='1'},{folder='2'},{folder='3'},{folder='4'},{folder='5'}]
Task | node=[{files=['a']}];out=[{folder='o'}]
Task | node=[{files=['a']}];out=[{folder='o'}];task='t'
Task | node=[{files=['a']}];out=[{folder='o'}];task={}
Task | node=[{files=['a']}];out=[{folder='o'}];task={folder=''}
Task | node=[{files=['a']}];out=[{folder='o'}];task={folder='t',x=1}
Task | node=[{files=['a']}];out=[{folder='p'},{folder='o'}];task={folder='o'}
Table | +table={}
Table | +table=[{db='d',table='t',to_db='e'}]
Table | +table=[{db='d',table='t',to_db='e',to_table='f',x=1}]
Table | +table=[{db='',table='t',to_db='e',to_table='f'}]
Table | +table=[{db='d',table='t',to_db='e',to_table=1}]
Table | +table=[{db='d',table='t',to_db='e',to_table='0123456789012345678901234567890123456789012345678901234567890123X'}]
Table | +table=[{db='d',table='t',to_db='e',to_table='f'},{db='d',table='u',to_db='e',to_table='f'},{db='d',table='t',to_db='x',to_table='y'}]
User | +user=[]
User | +user={name='r',hash=''}
User | +user=[{name='',hash=''}]
User | +user=[{name='012345678901234567890123456789012',hash=''}]
User | +user=[{name=\"a\\u0000\",hash=''}]
User | +user=[{name='r'}]
User | +user=[{name='r',hash='',x=1}]
User | +user=[{name='r',hash='00'}]
User | +user=[{name='r',hash='012345678901234567890123456789012345678'}]
User | +user=[{name='r',hash='01234567890123456789012345678901234567890'}]
User | +user=[{name='r',hash='012345678901234567890123456789012345678g'}]
User | +user=[{name='r',hash=''},{name='s',hash=''},{name='r',hash=''}]
Split | +split=[]
Split | +split={from=1}
Split | +split={from=0,folders=['a','b']}
Split | +split={from=2,folders=['a','b']}
Split | +split={from='1',folders=['a','b']}
Split | +split={from=1,folders=['a']}
Split | +split={from=1,folders=['a','a']}
Split | +split={from=1,folders=['a','']}
Split | +split={from=1,folders=['a','o']}
Split | +split={from=1,folders=['a','t']}
Split | +split={from=1,folders=['a','b'],x=1}
Split | +split={from=1,folders=['1','2','3','4','5','6','7','8','9','10','11','12','13','14','15','16','17']}
Unknown | +x=1
Unknown | +Rotation=256
Rotation | +rotation=1;window=1
Window | +window=1;x=1
Node | node=[];out=[]
Out | node=[{files=['a']}];out=[];task={}
Task | node=[{files=['a']}];out=[{folder='o'}];task={};table=1
Table | +table=1;user=1
User | +user=1;split=1
Split | +split=1;x=1";

// The numbers of a plan: rotation, window, nodes, outs, users, and whether it splits; and its configuration.
const ACCEPTED: &str = "\
536870912 16777216 1 1 0 false | +
256 4096 1 1 0 false | +rotation=256;window=4096
1073741824 268435456 1 1 0 false | +rotation=1073741824;window=268435456
256 16777216 1 1 0 false | +rotation=0x100 # sixteen times sixteen
256 16777216 2 1 0 false | rotation=256;[[node]];files=['a','b'];[[node]];files=['c'];[[out]];folder='o';[task];folder='t'
536870912 16777216 1 1 0 false | node=[{files=['a']}];out=[{folder='o'}];task.folder='t'
536870912 16777216 1 4 0 false | node=[{files=['a']}];out=[{folder='1'},{folder='2',listen='a:1'},{folder='3'},{folder='4'}];task={folder='t'}
536870912 16777216 1 1 0 false | +table=[]
536870912 16777216 1 1 0 false | +table=[{db='d1',table='t1',to_db='shop',to_table='orders'}]
536870912 16777216 1 1 2 false | +user=[{name='r',hash=''},{name='01234567890123456789012345678901',hash='0123456789abcdefABCDEF678901234567890123'}]
536870912 16777216 1 1 0 true | +split={from=1,folders=['a','b']}
536870912 16777216 1 1 0 true | +split={from=1,folders=['1','2','3','4','5','6','7','8','9','10','11','12','13','14','15','16']}";

#[test]
fn the_first_key_that_fails_is_named(rt: HostRuntime) -> Result<(), Fail> {
    for line in REFUSED.lines() {
        let (wanted, config) = line.split_once(" |").ok_or("a line")?;
        let text = config_of(rt.alloc(), config.trim_start())?;
        assert_eq!(rt;
            config_shown(rt.alloc(), text.as_str())?.as_str(),
            wanted,
            "at {config}"
        );
    }
    Ok(())
}

#[test]
fn both_ends_of_each_range_are_accepted(rt: HostRuntime) -> Result<(), Fail> {
    for line in ACCEPTED.lines() {
        let (wanted, config) = line.split_once(" |").ok_or("a line")?;
        let text = config_of(rt.alloc(), config.trim_start())?;
        assert_eq!(rt;
            config_shown(rt.alloc(), text.as_str())?.as_str(),
            wanted,
            "at {config}"
        );
    }
    Ok(())
}
